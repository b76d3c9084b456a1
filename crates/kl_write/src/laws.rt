// What is known of images that are made place by place.
ghost use Rattle.kl_write.specs.LaidKits.{ImageCarries, ImageHolds};

/// The bytes that `image_byte` gives for each place of the file carry a kernel's graph: whatever the inputs, for each sound
/// graph, order, gaps and placement that is laid out, where no field's value is out of range.
pub fn image_carries()
    ensures { ImageCarries }
{}

/// The bytes that `image_byte` gives for each place of the file are those that a library's file has to hold: its pieces, fields, made
/// areas, padding and headers, for each sound graph, order and placement that is laid out. What a loader makes of them is another law.
pub fn image_holds()
    ensures { ImageHolds }
{}
