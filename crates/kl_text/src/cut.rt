// Where a text is cut.
ghost use Rattle.std.specs.Prelude.{◌≡◌, ◌<◌, ◌==◌, ◌++◌, ◌∷◌, length, IfSome, IfNone, true};
ghost use Rattle.std.specs.Option.{option_map};
ghost use Rattle.std.specs.List.{position_from};
ghost use Rattle.kl_text.specs.Lines.{cut, first_line, lacks, IsLine};

/// The bytes up to the first of this value, and those behind it. `None` where the value doesn't stand in the text.
pub fn split(text: &[u8], value: u8) -> Option<(&[u8], &[u8])>
    ensures parts { IfSome result (λ x. text.now ≡ x.0.now ++ value ∷ x.1.now) }
    ensures first { IfSome result (λ x. lacks value x.0.now ≡ true) }
    ensures none { IfNone result (lacks value text.now ≡ true) }
    ensures cut { option_map (λ x. (x.0.now, x.1.now)) result ≡ cut value text.now }
{
    cut(text, value)
}

fn cut(text: &[u8], value: u8) -> Option<(&[u8], &[u8])>
    ensures { option_map (λ x. (x.0.now, x.1.now)) result ≡ cut value text.now }
{
    let end = place_of(text, value)?;
    Some((&text[..end], &text[end + 1..]))
}

fn place_of(text: &[u8], value: u8) -> Option<usize>
    ensures place { result ≡ position_from (λ b. b == value) 0 text.now }
    ensures within { IfSome result (λ n. n < length text.now) }
{
    text.iter().position(|b| *b == value)
}

/// The first line, without its newline, and what follows it. `None` where the text has no newline.
pub fn first_line(text: &[u8]) -> Option<(&[u8], &[u8])>
    ensures parts { IfSome result (λ x. text.now ≡ x.0.now ++ 10 ∷ x.1.now) }
    ensures line { IfSome result (λ x. IsLine x.0.now) }
    ensures none { IfNone result (IsLine text.now) }
    ensures cut { option_map (λ x. (x.0.now, x.1.now)) result ≡ first_line text.now }
{
    split(text, b'\n')
}
