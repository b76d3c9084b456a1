// Digests as lower-case digits.
ghost use Rattle.std.specs.Prelude.{◌≡◌, true};
ghost use Rattle.std.specs.Option.{option_map};
ghost use Rattle.kl_intent.specs.IntentText.{digest_of, old_of};

// The bytes of 64 lower-case digits.
pub fn digest_of(word: &[u8]) -> Option<[u8; 32]>
    ensures { result ≡ digest_of word.now }
{
    let mut digest = [0; 32];
    if hex::decode_to_slice(word, &mut digest).is_err() {
        return None;
    }
    let mut digits = [0; 64];
    hex::encode_to_slice(&digest, &mut digits).unwrap();
    if digits.as_slice() == word {
        Some(digest)
    } else {
        None
    }
}

// The same, or nothing where the word is `-`.
pub fn old_of(word: &[u8]) -> Option<Option<[u8; 32]>>
    ensures { result ≡ old_of word.now }
{
    if word == b"-".as_slice() {
        return Some(None);
    }
    match digest_of(word) {
        Some(digest) => Some(Some(digest)),
        None => None,
    }
}
