// The header of a member.
ghost use Rattle.std.specs.Prelude.{◌≡◌, ◌<◌, [], length, slice_get, IfOk, OnOk};
ghost use Rattle.std.specs.Result.{result_err};
ghost use Rattle.kl_ar.specs.Archives.{header_faults};
ghost use Rattle.kl_ar.specs.Readers.{IsHeader};

use crate::fault::ArFault;
use crate::field::{decimal_of, text_of};
use crate::format::{END_AT, HEADER_END, HEADER_LEN, NAME_LEN, SIZE_AT, SIZE_LEN};
use crate::name::{NameForm, name_form};

/// A header: its place in the file, what its name field says, and the length of the data behind it.
#[derive(Clone, Copy)]
pub(crate) struct Header {
    pub(crate) at: usize,
    pub(crate) form: NameForm,
    pub(crate) size: usize,
}

impl Header {
    /// The header at a place of a file, where it and its data have no fault.
    #[tactic(auto, unfolding(crate::specs::Archives::header_faults))]
    pub(crate) fn read(bytes: &[u8], at: usize) -> Result<Self, ArFault>
        requires { at < length bytes.now }
        ensures at { IfOk result (λ header. header.at ≡ at) }
        ensures header { IfOk result (IsHeader bytes.now) }
        ensures sound { OnOk result (header_faults bytes.now at ≡ []) }
        ensures fault { result_err result ≡ slice_get (header_faults bytes.now at) 0 }
    {
        let place = at as u64;
        let rest = &bytes[at..];
        if rest.len() < HEADER_LEN {
            return Err(ArFault::Truncated { at: place });
        }
        let header = &rest[..HEADER_LEN];
        if !header.ends_with(&HEADER_END) {
            return Err(ArFault::Header {
                at: place + END_AT as u64,
            });
        }
        let Some(size) = decimal_of(text_of(&header[SIZE_AT..SIZE_AT + SIZE_LEN])) else {
            return Err(ArFault::SizeText {
                at: place + SIZE_AT as u64,
            });
        };
        if size > (rest.len() - HEADER_LEN) as u64 {
            return Err(ArFault::Truncated { at: place });
        }
        Ok(Header {
            at,
            form: name_form(&header[..NAME_LEN]),
            size: size as usize,
        })
    }
}
