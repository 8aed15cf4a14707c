//! The window of a function.
ghost use Rattle.std.specs.Prelude.{◌≡◌, ◌≤◌, ◌<◌, length, IfOk};
ghost use Rattle.std.specs.Bool.{OnTrue, OnFalse};
ghost use Rattle.onvm_base.specs.declared.limits.TheConstants.{WINDOW_SAMPLES};
ghost use Rattle.load_estimate.specs.Windows.{arrivals_of, empty_window, median_of, with_sample, without_old};
ghost use Rattle.load_estimate.specs.Fields.{AreYoung, IsOldestOld, at_moment, with_newest, without_oldest};

use crate::sample::Sample;
use crate::times::Times;
use circular_buffer::HeapCircularBuffer;
use onvm_base::{NoMemory, WINDOW_SAMPLES};
use std::alloc::Global;
use std::marker::Model;

/// The last samples of a function, at most [`WINDOW_SAMPLES`], without those that were found to be
/// old. The moments that it is told of never fall from call to call.
#[derive(Drop)]
pub struct Window {
    span: u64,
    // The oldest first.
    samples: HeapCircularBuffer<Sample>,
    // Kept in order beside the samples, so that no median has to sort.
    times: Times,
    arrivals: u64,
    latest: u64,
}

impl Model for Window {
    ghost use Rattle.load_estimate.specs.Windows.{WindowState};
    ghost use Rattle.load_estimate.specs.Fields.{AreOfSamples};

    ghost Value = { WindowState };

    ghost view = { λ window. record {
      span = window.span;
      latest = window.latest;
      samples = window.samples.items;
    } };

    ghost invariant = { λ window.
        AreOfSamples window.latest window.samples window.times window.arrivals };
}

impl Window {
    /// A window without samples, of this length in nanoseconds. All room is taken here.
    pub fn make(alloc: Global, length: u64) -> Result<Window, NoMemory>
        ensures empty { IfOk result (λ window. window ≡ empty_window length) }
        ensures latest { IfOk result (λ window. window.latest ≡ 0) }
    {
        let samples = HeapCircularBuffer::with_capacity(alloc, WINDOW_SAMPLES)?;
        let times = Times::make(alloc)?;
        Ok(Window {
            span: length,
            samples,
            times,
            arrivals: 0,
            latest: 0,
        })
    }

    /// Takes a sample in, where the window is full in the place of the oldest one. It takes no
    /// memory.
    pub fn add(&mut self, sample: Sample)
        requires { self.old.latest ≤ sample.moment }
        ensures sample { self.new ≡ with_sample sample self.old }
        ensures latest { self.new.latest ≡ sample.moment }
    {
        if self.samples.len() >= WINDOW_SAMPLES {
            self.drop_oldest();
        }
        self.push(sample);
    }

    /// Lets the samples go whose age is not below the window's length. It takes no memory.
    pub fn age_out(&mut self, now: u64)
        requires { self.old.latest ≤ now }
        ensures young { self.new ≡ without_old now self.old }
        ensures latest { self.new.latest ≡ now }
    {
        self.advance(now);
        while self.is_oldest_old(now) {
            self.drop_oldest();
        }
    }

    // Takes a sample in where there is room for it.
    fn push(&mut self, sample: Sample)
        requires later { self.old.latest ≤ sample.moment }
        requires room { length self.old.samples < WINDOW_SAMPLES }
        ensures { self.new ≡ with_newest sample self.old }
    {
        self.times.add(sample.time);
        self.arrivals += u64::from(sample.count);
        self.latest = sample.moment;
        self.samples.push_back(sample);
    }

    // Takes note of a moment.
    fn advance(&mut self, now: u64)
        requires { self.old.latest ≤ now }
        ensures { self.new ≡ at_moment now self.old }
    {
        self.latest = now;
    }

    // Whether there is an oldest sample, and it is old. Where not, all are young.
    fn is_oldest_old(&self, now: u64) -> bool
        ensures old { OnTrue result (IsOldestOld self.now now) }
        ensures young { OnFalse result (AreYoung self.now now) }
    {
        match self.samples.front() {
            Some(oldest) => now.saturating_sub(oldest.moment) >= self.span,
            None => false,
        }
    }

    // Lets the oldest sample go, if there is one.
    fn drop_oldest(&mut self)
        ensures { self.new ≡ without_oldest self.old }
    {
        if let Some(oldest) = self.samples.pop_front() {
            self.times.remove(oldest.time);
            self.arrivals -= u64::from(oldest.count);
        }
    }

    /// The middle one of the times in order, of an even number the lower of two. None where the
    /// window is empty.
    pub fn median(&self) -> Option<u64>
        ensures { result ≡ median_of self.now.samples }
    {
        self.times.median()
    }

    /// The frames of the samples together.
    pub fn arrivals(&self) -> u64
        ensures { result ≡ arrivals_of self.now.samples }
    {
        self.arrivals
    }
}
