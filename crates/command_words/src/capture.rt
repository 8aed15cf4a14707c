//! A capture, as a word names it.
ghost use Rattle.std.specs.Prelude.{◌≡◌, ◌<◌, ◌≤◌, ◌^◌, ◌++◌, ℕ, IfNone, IfSome, codes, decimal};
ghost use Rattle.command_words.specs.Commands.{IsCapture, word_of};
ghost use Rattle.command_words.specs.declared.capture.CaptureWord.{CaptureWord as Capture};

use itoa::Buffer;
use onvm_base::MAX_PORT_FRAMES;

/// What a port's frames are read of.
#[derive(Clone, Copy, Debug, PartialEq, Eq)]
pub enum CaptureWord<'a> {
    /// A file by its name.
    File(&'a str),
    /// So many frames that are made of a seed, as `gen:SEED:COUNT` asks for them.
    Generated { seed: u64, count: u32 },
}

impl<'a> CaptureWord<'a> {
    /// The capture that a word names. It is none where the word begins with `gen:` and either number
    /// isn't written as it would be printed, or is beyond its limit.
    pub fn of(word: &'a str) -> Option<CaptureWord<'a>>
        ensures named { IfSome result (λ capture. (word_of capture ≡ word.now) × IsCapture capture) }
        ensures none { IfNone result ((capture : Capture) → IsCapture capture → ¬ (word_of capture ≡ word.now)) }
    {
        match word.strip_prefix("gen:") {
            Some(made) => generated(made),
            None => Some(CaptureWord::File(word)),
        }
    }
}

// SEED:COUNT
fn generated<'a>(made: &str) -> Option<CaptureWord<'a>>
    ensures named { IfSome result (λ capture. (word_of capture ≡ codes "gen:" ++ made.now) × IsCapture capture) }
    ensures none { IfNone result ((seed count : ℕ) → seed < 2 ^ 64 → count ≤ MAX_PORT_FRAMES
        → ¬ (made.now ≡ decimal seed ++ codes ":" ++ decimal count)) }
{
    let Some((seed, count)) = made.split_once(':') else {
        return None;
    };
    let Some(seed) = number(seed) else {
        return None;
    };
    let Some(count) = number(count) else {
        return None;
    };
    if count > MAX_PORT_FRAMES as u64 {
        return None;
    }
    Some(CaptureWord::Generated {
        seed,
        count: count as u32,
    })
}

// A number that is written as it would be printed: without sign or leading zero.
fn number(text: &str) -> Option<u64>
    ensures some { IfSome result (λ n. (text.now ≡ decimal n) × (n < 2 ^ 64)) }
    ensures none { IfNone result ((n : ℕ) → n < 2 ^ 64 → ¬ (text.now ≡ decimal n)) }
{
    let Ok(number) = text.parse::<u64>() else {
        return None;
    };
    if Buffer::new().format(number) == text {
        Some(number)
    } else {
        None
    }
}
