//! What feeders held back, and from when on.
ghost use Rattle.std.specs.Prelude.{◌≡◌, ◌++◌, if◌then◌else◌, codes, OnOk};
ghost use Rattle.onvm_report.specs.Report.{AreLines, IsLongerBy, names_among, post_key, post_line, with_commas};

use crate::lines::Lines;
use crate::order::key;
use onvm_base::{FunctionPlan, NoMemory, Post, Posts};
use std::alloc::Global;

// Each feeder's posts stand together already, and the feeders' in whatever order.
pub fn add_posts(
    alloc: Global,
    lines: &mut Lines,
    functions: &[FunctionPlan],
    posts: &Posts,
) -> Result<(), NoMemory>
    ensures { OnOk result (IsLongerBy (AreLines post_key (post_line functions.now) posts.now) lines.old lines.new) }
{
    let mut ordered = Posts::from_slice(alloc, posts.as_slice())?;
    ordered.sort_by_key(post_key)?;
    for post in ordered.as_slice() {
        add_post(lines, functions, post)?;
    }
    Ok(())
}

// By feeder, then by number.
fn post_key(post: &Post) -> u64
    ensures { result ≡ post_key post.now }
{
    key(post.feeder, post.number)
}

#[tactic(auto, unfolding(crate::specs::Report::post_line))]
fn add_post(lines: &mut Lines, functions: &[FunctionPlan], post: &Post) -> Result<(), NoMemory>
    ensures { OnOk result (lines.new ≡ lines.old ++ post_line functions.now post.now) }
{
    lines.begin("post", post.feeder, post.number)?;
    lines.number(post.moment)?;
    lines.words(" ")?;
    add_names(lines, functions, post.bits)?;
    lines.words("\n")
}

fn add_names(lines: &mut Lines, functions: &[FunctionPlan], bits: u32) -> Result<(), NoMemory>
    ensures { OnOk result (lines.new ≡ lines.old ++ with_commas (names_among functions.now bits)) }
{
    let mut rest = bits;
    let mut is_first = true;
    for function in functions {
        if rest % 2 == 1 {
            add_listed(lines, function, is_first)?;
            is_first = false;
        }
        rest /= 2;
    }
    if is_first {
        return lines.words("-");
    }
    Ok(())
}

// A name in a list of names.
fn add_listed(lines: &mut Lines, function: &FunctionPlan, is_first: bool) -> Result<(), NoMemory>
    ensures { OnOk result (lines.new ≡ lines.old ++ (if is_first then function.now.name else codes "," ++ function.now.name)) }
{
    if !is_first {
        lines.words(",")?;
    }
    lines.bytes(function.name.as_slice())
}
