//! Workers at a gate, and where each of them begins.
ghost use Rattle.std.specs.Prelude.{◌≡◌, ◌+◌, ◌-◌, ◌++◌, ◌<◌, ◌≤◌, Some, ◌∷◌, [], take};

use flp_field::Fe;
use flp_pool::{Gate, Work, run_range};
use flp_tally::{Memory, Tally};
use std::alloc::Global;
use std::sync::atomic::AtomicU32;
use std::sync::atomic::Ordering::SeqCst;
use std::test::Fail;
use std::thread;
use std::thread::Threads;

/// What one worker did: its numbers, and of the last of them its row, how often the gate of that number had been entered,
/// and whether as many items were begun in time as there were to be.
#[derive(Clone, Copy)]
struct Notes {
    numbers: [u32; 16],
    count: usize,
    word: [Fe; 1],
    entered: u32,
    met: bool,
}

impl Notes {
    fn new() -> Notes
        ensures { result.count ≡ 0 }
    {
        Notes {
            numbers: [0; 16],
            count: 0,
            word: [Fe::ZERO],
            entered: 0,
            met: false,
        }
    }

    fn note(&mut self, number: u32, entered: u32, met: bool)
        requires { self.old.count < 16 }
        ensures count { self.new.count ≡ self.old.count + 1 }
        ensures numbers { take self.new.count self.new.numbers ≡ take self.old.count self.old.numbers ++ number ∷ [] }
        ensures word { self.new.word ≡ number ∷ [] }
    {
        let Some(word) = Fe::new(number as u64) else {
            unreachable!()
        };
        self.numbers[self.count] = number;
        self.count += 1;
        self.word[0] = word;
        self.entered = entered;
        self.met = met;
    }

    /// Whether the number alone was done, after its gate had been entered once and while all others were begun.
    fn is_alone(&self, number: u32) -> bool {
        self.count == 1 && self.numbers[0] == number && self.entered == 1 && self.met
    }
}

/// A gate, and one item for each of the workers that pass it: the number 3 for worker 0, and so on.
#[derive(Drop)]
struct Watched {
    entered: [AtomicU32; 16],
    begun: AtomicU32,
    items: u32,
}

impl Watched {
    fn new(items: u32) -> Watched {
        Watched {
            entered: [
                AtomicU32::new(0),
                AtomicU32::new(0),
                AtomicU32::new(0),
                AtomicU32::new(0),
                AtomicU32::new(0),
                AtomicU32::new(0),
                AtomicU32::new(0),
                AtomicU32::new(0),
                AtomicU32::new(0),
                AtomicU32::new(0),
                AtomicU32::new(0),
                AtomicU32::new(0),
                AtomicU32::new(0),
                AtomicU32::new(0),
                AtomicU32::new(0),
                AtomicU32::new(0),
            ],
            begun: AtomicU32::new(0),
            items,
        }
    }

    /// Waits for a time until all items were begun, so that no worker does a second one.
    fn all_begun(&self) -> bool {
        for _ in 0..100_000_000 {
            if self.begun.load(SeqCst) == self.items {
                return true;
            }
            thread::yield_now();
        }
        false
    }
}

impl Gate for Watched {
    fn enter(&self, worker: u32) {
        if let Some(count) = self.entered.get(worker as usize) {
            count.fetch_add(1, SeqCst);
        }
    }
}

impl Work for Watched {
    type State = Notes;

    ghost row_of = { λ w n. Some (n ∷ []) };

    ghost last = { λ s. Some s.word };

    ghost room = { λ s. 16 - s.count };

    ghost done = { λ s. take s.count s.numbers };

    ghost right = { λ w s. s.count ≤ 16 };

    ghost takes = { λ w n. (3 ≤ n) × (n < 19) };

    fn item(&self, number: u32, state: &mut Notes) -> bool {
        let entered = self.entered[(number - 3) as usize].load(SeqCst);
        self.begun.fetch_add(1, SeqCst);
        state.note(number, entered, self.all_begun());
        true
    }

    fn row<'a>(&self, state: &'a Notes) -> &'a [Fe] {
        &state.word
    }
}

/// Whether each of the workers entered once and the others did not, and each item was done by the worker that begins with it.
fn is_as_due(watched: &Watched, states: &[Notes; 16], workers: u32) -> bool {
    for (place, count) in watched.entered.iter().enumerate() {
        let worker = place as u32;
        let done = if worker < watched.items {
            states[place].is_alone(3 + worker)
        } else {
            states[place].count == 0
        };
        if !done || count.load(SeqCst) != (worker < workers) as u32 {
            return false;
        }
    }
    true
}

/// Runs over so many items, which are as many as the workers or none, and tells whether all was as is due.
fn runs_well<R: Threads + Sync>(
    rt: &R,
    alloc: Global,
    workers: u32,
    items: u32,
) -> Result<bool, Memory>
    requires { (1 ≤ workers) × (workers ≤ 16) × (items ≤ 16) }
{
    let watched = Watched::new(items);
    let mut states = [Notes::new(); 16];
    let (mine, _) = states.split_at_mut(workers as usize);
    let (tally, seat) = Tally::new(alloc, 19, 1, workers)?;
    let _seat = run_range(
        rt,
        &watched,
        &tally,
        seat,
        workers,
        3,
        3 + items,
        mine,
        &watched,
    );
    Ok(is_as_due(&watched, &states, workers))
}

#[test]
fn each_worker_enters_once_and_begins_at_a_place_of_its_own(rt: HostRuntime) -> Result<(), Fail> {
    for workers in 1..17 {
        assert_eq!(rt;
            runs_well(&rt, rt.alloc(), workers, workers)?,
            true,
            "{workers}"
        );
    }
    Ok(())
}

#[test]
fn each_worker_enters_where_nothing_is_to_be_done(rt: HostRuntime) -> Result<(), Fail> {
    for workers in 1..17 {
        assert_eq!(rt; runs_well(&rt, rt.alloc(), workers, 0)?, true, "{workers}");
    }
    Ok(())
}
