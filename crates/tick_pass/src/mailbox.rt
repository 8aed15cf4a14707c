//! The samples of one function, from its mail ring to its window and the list of all.
ghost use Rattle.std.specs.Prelude.{◌≡◌, ◌+◌, ◌<◌, ◌≤◌, ℕ, not, nat_lt};
ghost use Rattle.onvm_base.specs.declared.ids.RingId.TheVariants.{Mail as MailRing};
ghost use Rattle.onvm_core.specs.Places.{one_if};
ghost use Rattle.desc_ring.specs.Ends.{IsMailHead};
ghost use Rattle.onvm_promises.specs.Lines.{samples_of};
ghost use Rattle.tick_pass.specs.Roles.{HasRoom, HasWindow};
ghost use Rattle.tick_pass.specs.Taking.{HasTaken};

use crate::room::append;
use crate::sample::sample_of;
use desc_ring::Mail;
use load_estimate::{Sample, Window};
use onvm_base::{FnId, MAIL_RING};
use onvm_board::{Board, Token};

// Takes one sample. False where the ring was empty.
fn take_one(
    mail: &mut Mail,
    window: &mut Window,
    samples: &mut Vec<Sample>,
    token: &mut Token,
    board: &Board,
    function: FnId,
    now: u64,
) -> bool
    requires mail { IsMailHead board.now mail.old token.old }
    requires ring { mail.old.spot.ring ≡ MailRing function }
    requires window { HasWindow now (samples_of function.0 samples.old.items) window.old }
    requires room { HasRoom 1 samples.old }
    ensures taken { HasTaken function now (one_if result) (not result) token.old token.new
        samples.old.items samples.new.items }
    ensures window { HasWindow now (samples_of function.0 samples.new.items) window.new }
    ensures span { window.new.span ≡ window.old.span }
    ensures mail { IsMailHead board.now mail.new token.new }
    ensures ring { mail.new.spot.ring ≡ MailRing function }
    ensures room { (n : ℕ) → HasRoom (n + 1) samples.old → HasRoom n samples.new }
{
    match mail.take_sample(board, token) {
        Some(number) => {
            let sample = sample_of(function, number, now);
            window.add(sample);
            append(samples, sample);
            true
        }
        None => false,
    }
}

/// Takes a ring's worth of samples, and fewer only up to where the ring was empty.
pub(crate) fn take_waiting(
    mail: &mut Mail,
    window: &mut Window,
    samples: &mut Vec<Sample>,
    token: &mut Token,
    board: &Board,
    function: FnId,
    now: u64,
) -> u16
    requires mail { IsMailHead board.now mail.old token.old }
    requires ring { mail.old.spot.ring ≡ MailRing function }
    requires window { HasWindow now (samples_of function.0 samples.old.items) window.old }
    requires room { HasRoom MAIL_RING samples.old }
    ensures taken { HasTaken function now result (nat_lt result MAIL_RING) token.old token.new
        samples.old.items samples.new.items }
    ensures few { result ≤ MAIL_RING }
    ensures window { HasWindow now (samples_of function.0 samples.new.items) window.new }
    ensures span { window.new.span ≡ window.old.span }
    ensures mail { IsMailHead board.now mail.new token.new }
    ensures ring { mail.new.spot.ring ≡ MailRing function }
    ensures room { (n : ℕ) → HasRoom (n + MAIL_RING) samples.old → HasRoom n samples.new }
{
    for taken in 0..MAIL_RING {
        if !take_one(mail, window, samples, token, board, function, now) {
            return taken;
        }
    }
    MAIL_RING
}
