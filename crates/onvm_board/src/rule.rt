//! The rule of the table, and what a step tells.
ghost use Rattle.std.specs.Prelude.{ℕ};
ghost use Rattle.onvm_core.specs.declared.layout.Layout.{Layout};
ghost use Rattle.onvm_core.specs.declared.parcel.Parcel.{Parcel};
ghost use Rattle.onvm_core.specs.declared.step.Act.TheVariants.{Split as SplitAct};
ghost use Rattle.onvm_board.specs.Rule.{HasHistory, Telling, TellsNothing};
ghost use Rattle.onvm_board.specs.Rule.{first_view, view_after, split_view, view_after_join, spent_view};
ghost use Rattle.onvm_board.specs.Rule.{archived_view, same_view};

use crate::view::View;
use atomic_table::{Join, Play, Split, TableRule};
use onvm_core::{Layout, Parcel};
use std::marker::{Brand, PhantomData};

/// Words, slots and views stand for one lawful history.
pub struct BoardRule;

impl TableRule<Option<Parcel>, View, Layout> for BoardRule {
    ghost holds = { HasHistory };

    ghost first = { first_view };
}

/// What a call has its step tell. A play can't read the call's arguments, so each call picks its
/// own.
pub trait StepFact {
    ghost tells: { Telling };
}

impl StepFact for Brand {
    ghost tells = { TellsNothing };
}

/// A step that tells what its call picked.
pub struct TellsFact<F> {
    of: PhantomData<F>,
}

impl<F: StepFact> Play<Option<Parcel>, View> for TellsFact<F> {
    ghost then = { λ move me found after. F.tells me found after };
}

/// The role that a call splits.
pub trait SplitRole {
    ghost role: { ℕ };
}

impl SplitRole for Brand {
    ghost role = { 0 };
}

/// A role's token is split from the first one.
pub struct SplitView<F> {
    of: PhantomData<F>,
}

impl<F: SplitRole> Split<View> for SplitView<F> {
    ghost left = { view_after (SplitAct F.role) };

    ghost right = { split_view F.role };
}

/// A role's token is joined to the first one.
pub struct JoinViews;

impl Join<View> for JoinViews {
    ghost both = { view_after_join };

    ghost spent = { spent_view };
}

/// A view is kept to be read once the board is closed.
pub struct ArchiveView;

impl Split<View> for ArchiveView {
    ghost left = { same_view };

    ghost right = { archived_view };
}
