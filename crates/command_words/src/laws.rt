//! `clap` takes the words of commands, and finds in them what they say.
ghost use Rattle.std.specs.Prelude.{◌≡◌, ◌≤◌, ◌↔◌, true, ℕ, List, length, codes, All, [], IsUtf8};
ghost use Rattle.clap.specs.Lexer.{usize_max};
ghost use Rattle.command_words.specs.Asked.{HasFlag, IsTaken, matched, others_in};
ghost use Rattle.command_words.specs.Flags.{are_new, flags_of, is_given, others_of};

/// `clap` takes texts exactly where each flag is known, and is none of those before it.
pub fn taken()
    ensures { (words : List (List ℕ)) → All IsUtf8 words → length words ≤ usize_max
        → IsTaken words ↔ (are_new [] (flags_of words) ≡ true) }
{}

/// Of texts that it takes it finds the other words, in their order, and the flags.
pub fn found()
    ensures others { (words : List (List ℕ)) → All IsUtf8 words → length words ≤ usize_max → IsTaken words
        → others_in (matched words) ≡ others_of words }
    ensures serial { (words : List (List ℕ)) → All IsUtf8 words → length words ≤ usize_max → IsTaken words
        → HasFlag (codes "serial") (matched words) ↔ (is_given (codes "--serial") (flags_of words) ≡ true) }
    ensures records { (words : List (List ℕ)) → All IsUtf8 words → length words ≤ usize_max → IsTaken words
        → HasFlag (codes "records") (matched words) ↔ (is_given (codes "--records") (flags_of words) ≡ true) }
    ensures throttle_log { (words : List (List ℕ)) → All IsUtf8 words → length words ≤ usize_max → IsTaken words
        → HasFlag (codes "throttle-log") (matched words) ↔ (is_given (codes "--throttle-log") (flags_of words) ≡ true) }
    ensures shares { (words : List (List ℕ)) → All IsUtf8 words → length words ≤ usize_max → IsTaken words
        → HasFlag (codes "shares") (matched words) ↔ (is_given (codes "--shares") (flags_of words) ≡ true) }
{}
