// What is known of printed lines and words.
ghost use Rattle.std.specs.Prelude.{◌≡◌, ◌++◌, ◌∷◌, ℕ, List};
ghost use Rattle.std.specs.List.{join_with_byte, AllByRecursion};
ghost use Rattle.kl_text.specs.Lines.{line, lines, words, IsLine, IsOneWord};

/// A printed line is the first of its text's lines, and words that are parted by one space are the words of their line.
pub fn prints_back()
    ensures line { (l rest : List ℕ) → IsLine l → lines (line l ++ rest) ≡ l ∷ lines rest }
    ensures words { (ws : List (List ℕ)) → AllByRecursion IsOneWord ws → words (join_with_byte 32 ws) ≡ ws }
{}
