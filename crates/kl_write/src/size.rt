// How long the file of an image is.
ghost use Rattle.std.specs.Prelude.{ℕ, List, Option, ◌≡◌, length};
ghost use Rattle.kl_base.specs.declared.class.Class.{Class};
ghost use Rattle.kl_model.specs.Areas.{class_number};
ghost use Rattle.kl_model.specs.Image.{image_size as size_of_image};
ghost use Rattle.kl_model.specs.declared.object.Input.{Input};
ghost use Rattle.kl_model.specs.declared.place.Gaps.{Gaps};
ghost use Rattle.kl_write.specs.InSpan.{IsAreaInSpan};
ghost use Rattle.kl_write.specs.LaidKits.{HasAreaAddresses, IsLaidKit, image_headers};
ghost use Rattle.kl_write.specs.Writes.{class_stop as stop_of_class, classes_stop};

use crate::place::file_place;
use kl_base::Class;
use kl_model::area::class_number as number_of;
use kl_model::{Graph, Kit, KitKind, Placement};

/// Where a class ends in the file, or 0 where it has no byte.
fn class_stop(kind: KitKind, placement: &Placement, class: Class) -> usize
    requires area { IsAreaInSpan placement.now (class_number class) }
    ensures { result ≡ stop_of_class kind placement.now class }
{
    let area = placement.areas.items()[number_of(class) as usize];
    if area.start == area.end {
        0
    } else {
        file_place(kind, placement, area.end)
    }
}

/// The greatest of the places at which the headers and the classes in the file end.
fn file_stop(kind: KitKind, placement: &Placement, headers: usize) -> usize
    requires areas { (c : Class) → IsAreaInSpan placement.now (class_number c) }
    ensures { result ≡ classes_stop kind placement.now headers }
{
    headers
        .max(class_stop(kind, placement, Class::Text))
        .max(class_stop(kind, placement, Class::Rodata))
        .max(class_stop(kind, placement, Class::Rwdata))
}

/// How many bytes an image has, with so many bytes of headers: it ends behind them and the last byte of a class that is in the file.
pub fn image_size(kit: &Kit, graph: &Graph, placement: &Placement, headers: usize) -> usize
    requires laid { (gaps : Option Gaps) × (order : List ℕ) × IsLaidKit kit.now graph.now gaps order placement.now }
    requires addresses { HasAreaAddresses placement.now }
    requires headers { headers ≡ length (image_headers kit.now placement.now graph.now) }
    ensures { (inputs : List Input) (gaps : Option Gaps) → result ≡ size_of_image kit.now inputs graph.now gaps placement.now }
{
    file_stop(kit.kind, placement, headers)
}
