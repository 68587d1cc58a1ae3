//! The calls that are to fail, and other counts.

ghost use Rattle.std.specs.Prelude.{◌≡◌, drop, slice_get};
ghost use Rattle.wire_devices.specs.Telling.{AddsOne};
ghost use Rattle.wire_devices.specs.Forms.{plan_of, is_due, next_call};

use std::collections::VecDeque;
use std::marker::Model;

/// The numbers of the calls that are to fail, counted from 0.
#[derive(Drop)]
pub(crate) struct CallPlan {
    failing: Vec<usize>,
    calls: usize,
}

impl Model for CallPlan {
    ghost use Rattle.wire_devices.specs.Forms.{Plan};

    ghost Value = { Plan };

    ghost view = { λ p. record { failing = p.failing.items; calls = p.calls } };
}

impl CallPlan {
    pub(crate) fn new(failing: Vec<usize>) -> CallPlan
        ensures { result ≡ plan_of failing.items }
    {
        CallPlan { failing, calls: 0 }
    }

    /// Whether the next call is to fail.
    pub(crate) fn fails(&mut self) -> bool
        ensures answer { result ≡ is_due self.old }
        ensures next { self.new ≡ next_call self.old }
    {
        let call = self.calls;
        self.calls = call.saturating_add(1);
        self.failing.as_slice().contains(&call)
    }
}

/// One more, as long as it can be counted.
pub(crate) fn counted_on(count: Option<u64>) -> Option<u64>
    ensures { AddsOne count result }
{
    let count = count?;
    if count < u64::MAX {
        Some(count + 1)
    } else {
        None
    }
}

/// The next of the looks, or None where they are used up.
pub(crate) fn next_look<T>(looks: &mut VecDeque<T>) -> Option<T>
    ensures look { result ≡ slice_get looks.old.items 0 }
    ensures rest { looks.new.items ≡ drop 1 looks.old.items }
{
    looks.pop_front()
}
