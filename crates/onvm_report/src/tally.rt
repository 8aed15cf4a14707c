//! How many frames met each outcome.
ghost use Rattle.std.specs.Prelude.{◌≡◌, ◌-◌, ◌<◌, ◌^◌, []};
ghost use Rattle.onvm_report.specs.Report.{tally_of};
ghost use Rattle.onvm_report.specs.Tally.{one_more, total};

use onvm_base::{Outcome, Record, Why};

/// The records of each line of the summary.
#[derive(Clone, Copy, Debug)]
pub struct Tally {
    pub sent: u64,
    pub asked: u64,
    pub chain_end: u64,
    pub no_service: u64,
    pub no_port: u64,
    pub hops: u64,
    pub throttled: u64,
    pub ring_full: u64,
    pub pool_empty: u64,
}

impl Tally {
    pub fn of(records: &[Record]) -> Tally
        ensures { result ≡ tally_of records.now }
    {
        let mut tally = Tally::none();
        for record in records {
            tally.add(record);
        }
        tally
    }

    fn none() -> Tally
        ensures { result ≡ tally_of [] }
    {
        Tally {
            sent: 0,
            asked: 0,
            chain_end: 0,
            no_service: 0,
            no_port: 0,
            hops: 0,
            throttled: 0,
            ring_full: 0,
            pool_empty: 0,
        }
    }

    fn add(&mut self, record: &Record)
        requires { total self.old < 2 ^ 64 - 1 }
        ensures { self.new ≡ one_more record.now.outcome self.old }
    {
        match record.outcome {
            Outcome::Sent(_) => self.sent += 1,
            Outcome::Dropped(_, Why::Asked) => self.asked += 1,
            Outcome::Dropped(_, Why::ChainEnd) => self.chain_end += 1,
            Outcome::Dropped(_, Why::NoService) => self.no_service += 1,
            Outcome::Dropped(_, Why::NoPort) => self.no_port += 1,
            Outcome::Dropped(_, Why::Hops) => self.hops += 1,
            Outcome::Throttled { .. } => self.throttled += 1,
            Outcome::RingFull { .. } => self.ring_full += 1,
            Outcome::PoolEmpty => self.pool_empty += 1,
        }
    }
}
