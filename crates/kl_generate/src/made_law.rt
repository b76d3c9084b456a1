// What is known of all made objects.
ghost use Rattle.kl_generate.specs.MadeRead.{MadeObjects};

/// Each object of a made kit is read without a flaw, as the input of that kit: a text that calls another object's function, and a word
/// of data that holds the address of its own.
pub fn made_objects()
    ensures { MadeObjects }
{}
