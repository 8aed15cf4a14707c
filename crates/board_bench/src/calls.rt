//! Bursts of one call.
ghost use Rattle.std.specs.Prelude.{◌≡◌, ◌<◌, []};
ghost use Rattle.onvm_core.specs.Layouts.{IsBuffer, IsWord, bit_of, port_of, tick_role, word_of};
ghost use Rattle.onvm_core.specs.declared.layout.Word.TheVariants.{Post as PostWord};
ghost use Rattle.onvm_board.specs.Tokens.{IsHead, IsMailRing, IsTail};

use crate::cost::{BURST, Cost};
use onvm_base::{BufId, FnId, FrameId, MAIL_RING, Outcome, PortId};
use onvm_board::{Ask, Board, Spot, Token};
use onvm_core::{Parcel, Word};
use onvm_host::Clock;

/// What a look costs.
pub fn cost_of_looks<C: Clock>(
    board: &Board,
    clock: &C,
    token: &mut Token,
    word: Word,
    rounds: u32,
) -> Cost
    requires board { token.old.board ≡ board.now.id }
    requires known { IsWord board.now.layout word }
    ensures same { (token.new.board ≡ token.old.board) × (token.new.role ≡ token.old.role) }
{
    let mut cost = Cost::new();
    for _ in 0..rounds {
        let start = clock.now();
        let sum = look_burst(board, token, word);
        cost.add(clock.now().saturating_sub(start), sum);
    }
    cost
}

fn look_burst(board: &Board, token: &mut Token, word: Word) -> u64
    requires board { token.old.board ≡ board.now.id }
    requires known { IsWord board.now.layout word }
    ensures same { (token.new.board ≡ token.old.board) × (token.new.role ≡ token.old.role) }
{
    let mut sum = 0u64;
    for _ in 0..BURST {
        sum = sum.wrapping_add(board.look(token, word));
    }
    sum
}

/// What a judged look at a feeder's post costs.
pub fn cost_of_judges<C: Clock>(
    board: &Board,
    clock: &C,
    token: &mut Token,
    feeder: u8,
    rounds: u32,
) -> Cost
    requires board { token.old.board ≡ board.now.id }
    requires known { IsWord board.now.layout (PostWord feeder) }
    ensures same { (token.new.board ≡ token.old.board) × (token.new.role ≡ token.old.role) }
{
    let mut cost = Cost::new();
    for _ in 0..rounds {
        let start = clock.now();
        let sum = judge_burst(board, token, feeder);
        cost.add(clock.now().saturating_sub(start), sum);
    }
    cost
}

fn judge_burst(board: &Board, token: &mut Token, feeder: u8) -> u64
    requires board { token.old.board ≡ board.now.id }
    requires known { IsWord board.now.layout (PostWord feeder) }
    ensures same { (token.new.board ≡ token.old.board) × (token.new.role ≡ token.old.role) }
{
    let frame = FrameId {
        port: PortId(0),
        number: 1,
    };
    let mut sum = 0u64;
    for _ in 0..BURST {
        let seen = board.judge(
            token,
            Word::Post(feeder),
            frame,
            Ask::Hold { feeder, mask: 1 },
        );
        sum = sum.wrapping_add(seen);
    }
    sum
}

/// What a post of a weight costs.
pub fn cost_of_posts<C: Clock>(
    board: &Board,
    clock: &C,
    token: &mut Token,
    function: FnId,
    rounds: u32,
) -> Cost
    requires board { token.old.board ≡ board.now.id }
    requires role { token.old.role ≡ tick_role board.now.layout }
    requires known { function.0 < board.now.layout.functions }
    ensures same { (token.new.board ≡ token.old.board) × (token.new.role ≡ token.old.role) }
{
    let mut cost = Cost::new();
    for _ in 0..rounds {
        let start = clock.now();
        post_burst(board, token, function);
        cost.add(clock.now().saturating_sub(start), u64::from(BURST));
    }
    cost
}

fn post_burst(board: &Board, token: &mut Token, function: FnId)
    requires board { token.old.board ≡ board.now.id }
    requires role { token.old.role ≡ tick_role board.now.layout }
    requires known { function.0 < board.now.layout.functions }
    ensures same { (token.new.board ≡ token.old.board) × (token.new.role ≡ token.old.role) }
{
    for value in 0..BURST {
        board.post(token, Word::Weight(function), u64::from(value));
    }
}

/// The two ends of a mail ring, with their tokens.
#[derive(Drop)]
pub struct Mail {
    pub core: Token,
    pub tail: Spot,
    pub tick: Token,
    pub head: Spot,
}

/// What a push on a mail ring and a pop from it cost together.
pub fn cost_of_mails<C: Clock>(board: &Board, clock: &C, mail: &mut Mail, rounds: u32) -> Cost
    requires tail { IsTail board.now mail.old.tail mail.old.core }
    requires head { IsHead board.now mail.old.head mail.old.tick }
    requires rings { IsMailRing mail.old.tail.ring × IsMailRing mail.old.head.ring }
{
    let mut cost = Cost::new();
    for _ in 0..rounds {
        let start = clock.now();
        let sum = mail_burst(board, mail);
        cost.add(clock.now().saturating_sub(start), sum);
    }
    cost
}

fn mail_burst(board: &Board, mail: &mut Mail) -> u64
    requires tail { IsTail board.now mail.old.tail mail.old.core }
    requires head { IsHead board.now mail.old.head mail.old.tick }
    requires rings { IsMailRing mail.old.tail.ring × IsMailRing mail.old.head.ring }
    ensures tail { IsTail board.now mail.new.tail mail.new.core }
    ensures head { IsHead board.now mail.new.head mail.new.tick }
    ensures rings { IsMailRing mail.new.tail.ring × IsMailRing mail.new.head.ring }
{
    let mut sum = 0u64;
    for value in 0..BURST {
        send(board, &mut mail.core, &mut mail.tail, u64::from(value) + 1);
        sum = sum.wrapping_add(receive(board, &mut mail.tick, &mut mail.head));
    }
    sum
}

fn send(board: &Board, token: &mut Token, spot: &mut Spot, value: u64)
    requires tail { IsTail board.now spot.old token.old }
    requires mail { IsMailRing spot.old.ring }
    requires value { 0 < value }
    ensures tail { IsTail board.now spot.new token.new }
    ensures mail { IsMailRing spot.new.ring }
{
    if board.mail(token, *spot, value).is_ok() {
        *spot = spot.next(MAIL_RING);
    }
}

fn receive(board: &Board, token: &mut Token, spot: &mut Spot) -> u64
    requires head { IsHead board.now spot.old token.old }
    requires mail { IsMailRing spot.old.ring }
    ensures head { IsHead board.now spot.new token.new }
    ensures mail { IsMailRing spot.new.ring }
{
    match board.unmail(token, *spot) {
        Some(value) => {
            *spot = spot.next(MAIL_RING);
            value
        }
        None => 0,
    }
}

/// What a look at the pool, a take and a give of one buffer cost together.
pub fn cost_of_takes<C: Clock>(
    board: &Board,
    clock: &C,
    token: &mut Token,
    buf: BufId,
    word: Word,
    parcel: &Parcel,
    rounds: u32,
) -> Cost
    requires board { token.old.board ≡ board.now.id }
    requires known { IsBuffer board.now.layout buf.0 × IsWord board.now.layout word }
    requires role { token.old.role ≡ port_of board.now.layout buf.0 }
    requires word { (word ≡ word_of board.now.layout buf.0) × (bit_of board.now.layout buf.0 ≡ 0) }
    requires empty_handed { token.old.hand ≡ [] }
    ensures same { (token.new.board ≡ token.old.board) × (token.new.role ≡ token.old.role) }
    ensures empty_handed { token.new.hand ≡ [] }
{
    let mut cost = Cost::new();
    for _ in 0..rounds {
        let start = clock.now();
        let sum = take_burst(board, token, buf, word, parcel);
        cost.add(clock.now().saturating_sub(start), sum);
    }
    cost
}

fn take_burst(board: &Board, token: &mut Token, buf: BufId, word: Word, parcel: &Parcel) -> u64
    requires board { token.old.board ≡ board.now.id }
    requires known { IsBuffer board.now.layout buf.0 × IsWord board.now.layout word }
    requires role { token.old.role ≡ port_of board.now.layout buf.0 }
    requires word { (word ≡ word_of board.now.layout buf.0) × (bit_of board.now.layout buf.0 ≡ 0) }
    requires empty_handed { token.old.hand ≡ [] }
    ensures same { (token.new.board ≡ token.old.board) × (token.new.role ≡ token.old.role) }
    ensures empty_handed { token.new.hand ≡ [] }
{
    let mut sum = 0u64;
    for _ in 0..BURST {
        sum = sum.wrapping_add(take_and_give(board, token, buf, word, parcel));
    }
    sum
}

fn take_and_give(board: &Board, token: &mut Token, buf: BufId, word: Word, parcel: &Parcel) -> u64
    requires board { token.old.board ≡ board.now.id }
    requires known { IsBuffer board.now.layout buf.0 × IsWord board.now.layout word }
    requires role { token.old.role ≡ port_of board.now.layout buf.0 }
    requires word { (word ≡ word_of board.now.layout buf.0) × (bit_of board.now.layout buf.0 ≡ 0) }
    requires empty_handed { token.old.hand ≡ [] }
    ensures same { (token.new.board ≡ token.old.board) × (token.new.role ≡ token.old.role) }
    ensures empty_handed { token.new.hand ≡ [] }
{
    let seen = board.look(token, word);
    if seen & 1 == 0 {
        return seen;
    }
    board.take(token, buf);
    board.give(token, buf, Outcome::Sent(0), parcel);
    seen
}
