// Parts that stand one behind another.
ghost use Rattle.std.specs.Prelude.{◌≡◌, ◌+◌, ◌%◌, ◌*◌, ◌<◌, ◌≤◌, ◌^◌, length, IfOk, OnOk, All};
ghost use Rattle.kl_model.specs.Laid.{reach};
ghost use Rattle.kl_model.specs.Lists.{up};
ghost use Rattle.kl_model.specs.Placed.{first_stop};
ghost use Rattle.kl_model.specs.Sound.{IsSoundGraph};
ghost use Rattle.kl_layout.specs.Once.{AreDistinct, AreOnce};
ghost use Rattle.kl_layout.specs.Stops.{body_number, IsPart, IsStep, HasAreas, HasStops, joined, listed, room};

use kl_base::Listed;
use kl_model::{AreaAt, Body, LinePart, area};

/// How many bodies come before the areas that a linker makes: the gaps of the four classes.
pub(crate) const FIRST_AREA: usize = 4;

/// How many bodies come before the pieces.
pub(crate) const FIRST_PIECE: usize = FIRST_AREA + area::FIRST_RUN as usize;

/// How many bytes lie between an address and the least multiple of an alignment at or past it.
pub(crate) fn padding(address: u64, align: u64) -> u64
    requires { 0 < align }
    ensures value { address + result ≡ up address align }
    ensures short { result < align }
{
    match address % align {
        0 => 0,
        rest => align - rest,
    }
}

/// The number of a body: gaps are first, by class, then the areas that a linker makes, then the pieces.
fn body_number(body: Body) -> usize
    ensures { result ≡ body_number body }
{
    match body {
        Body::Gap(class) => area::class_number(class) as usize,
        Body::Area(number) => FIRST_AREA + number as usize,
        Body::Piece(number) => FIRST_PIECE + number as usize,
    }
}

/// Lays parts from a place on, in bytes from the base, and writes the address of each by its body's number, modulo 2^64. Gives the
/// place at which they end.
fn lay_parts(base: u64, from: u64, parts: &[LinePart], addresses: &mut [u64]) -> u64
    requires parts { All (IsPart (length addresses.old)) parts.now }
    requires once { AreOnce parts.now }
    requires room { from + room parts.now < 2 ^ 63 }
    ensures count { length addresses.new ≡ length addresses.old }
    ensures reach { base + result ≡ reach (base + from) parts.now }
    ensures room { result ≤ from + room parts.now }
    ensures stops { HasStops (base + from) parts.now addresses.old addresses.new }
{
    let mut place = from;
    for part in parts {
        place += padding(base.wrapping_add(place), part.align);
        addresses[body_number(part.body)] = base.wrapping_add(place);
        place += part.size;
    }
    place
}

/// The address at which parts start that are laid from a place on, modulo 2^64.
fn first_stop(base: u64, from: u64, parts: &[LinePart]) -> u64
    requires { All (λ x. IsStep x.align) parts.now }
    ensures { result ≡ first_stop (base + from) parts.now % 2 ^ 64 }
{
    let address = base.wrapping_add(from);
    match parts {
        [] => address,
        [first, ..] => address.wrapping_add(padding(address, first.align)),
    }
}

/// The address at which the parts of some spreads start that are laid from a place on, modulo 2^64.
pub(crate) fn line_start(base: u64, from: u64, lists: &[Listed<LinePart>], numbers: &[usize]) -> u64
    requires parts { All (λ x. IsStep x.align) (joined lists.now numbers.now) }
    requires known { All (λ n. n < length lists.now) numbers.now }
    ensures { result ≡ first_stop (base + from) (joined lists.now numbers.now) % 2 ^ 64 }
{
    for number in numbers {
        let parts = lists[*number].items();
        if !parts.is_empty() {
            return first_stop(base, from, parts);
        }
    }
    base.wrapping_add(from)
}

/// Lays some spreads from a place on. Writes the address of each part, and where each spread starts and ends. Gives the place at
/// which they end.
pub(crate) fn lay_spreads(
    base: u64,
    from: u64,
    lists: &[Listed<LinePart>],
    numbers: &[usize],
    addresses: &mut [u64],
    areas: &mut [AreaAt],
) -> u64
    requires parts { All (IsPart (length addresses.old)) (joined lists.now numbers.now) }
    requires once { AreOnce (joined lists.now numbers.now) }
    requires room { from + room (joined lists.now numbers.now) < 2 ^ 63 }
    requires known { All (λ n. n < length lists.now) numbers.now }
    requires areas { length areas.old ≡ length lists.now }
    requires apart { AreDistinct numbers.now }
    ensures addresses_count { length addresses.new ≡ length addresses.old }
    ensures areas_count { length areas.new ≡ length areas.old }
    ensures reach { base + result ≡ reach (base + from) (joined lists.now numbers.now) }
    ensures room { result ≤ from + room (joined lists.now numbers.now) }
    ensures stops { HasStops (base + from) (joined lists.now numbers.now) addresses.old addresses.new }
    ensures areas { HasAreas (base + from) (listed lists.now numbers.now) areas.old areas.new }
{
    let mut place = from;
    for number in numbers {
        let parts = lists[*number].items();
        let start = first_stop(base, place, parts);
        place = lay_parts(base, place, parts, addresses);
        areas[*number] = AreaAt {
            start,
            end: base.wrapping_add(place),
        };
    }
    place
}
