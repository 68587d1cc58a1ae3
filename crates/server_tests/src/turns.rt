//! Threads at a turnstile.

ghost use Rattle.std.specs.Prelude.{◌≡◌, [], ◌∷◌, ⊤};
ghost use Rattle.turnstile.specs.Passes.{known, table_of};

use std::sync::Wait;
use std::test::Fail;
use std::thread::{Threads, join};
use turnstile::{Desk, Pass, Turnstile};

/// It adds up what is asked, modulo 2^64, answers the sum so far, and refuses the number 0.
#[derive(Drop)]
struct Counter {
    sum: u64,
}

impl Desk for Counter {
    type Ask = u64;

    type Answer = u64;

    type Refusal = ();

    type Base = u64;

    ghost stands = { λ _ _ _. ⊤ };

    ghost refuses = { λ _ _. ⊤ };

    fn step<R: Wait>(&mut self, _rt: &R, ask: u64) -> Result<u64, ()> {
        if ask == 0 {
            return Err(());
        }
        self.sum = self.sum.wrapping_add(ask);
        Ok(self.sum)
    }
}

type Reply = Result<u64, ()>;

/// Visits with 5, 0 and 7.
fn three_visits<R: Wait>(
    rt: &R,
    turnstile: &Turnstile<Counter>,
    pass: &mut Pass<Counter>,
) -> (Reply, Reply, Reply)
    requires { table_of pass.old ≡ turnstile.now }
    ensures table { table_of pass.new ≡ table_of pass.old }
    ensures numbers { (known pass.new).numbers ≡ (known pass.old).numbers }
{
    let first = turnstile.visit(rt, pass, 5);
    let second = turnstile.visit(rt, pass, 0);
    let third = turnstile.visit(rt, pass, 7);
    (first, second, third)
}

fn visit_often<R: Wait>(
    rt: &R,
    turnstile: &Turnstile<Counter>,
    mut pass: Pass<Counter>,
    times: u32,
) -> Pass<Counter>
    requires { table_of pass ≡ turnstile.now }
    ensures table { table_of result ≡ table_of pass }
    ensures numbers { (known result).numbers ≡ (known pass).numbers }
{
    for _ in 0..times {
        let _ = turnstile.visit(rt, &mut pass, 1);
    }
    pass
}

/// One pass in this thread and one in another.
fn both_visit<R: Threads + Wait + Sync>(
    rt: &R,
    turnstile: &Turnstile<Counter>,
    one: Pass<Counter>,
    two: Pass<Counter>,
    times: u32,
) -> (Pass<Counter>, Pass<Counter>)
    requires { (table_of one ≡ turnstile.now) × (table_of two ≡ turnstile.now) }
    ensures tables { (table_of result.0 ≡ table_of one) × (table_of result.1 ≡ table_of two) }
    ensures numbers { ((known result.0).numbers ≡ (known one).numbers)
        × ((known result.1).numbers ≡ (known two).numbers) }
{
    join(
        rt,
        || visit_often(rt, turnstile, one, times),
        || visit_often(rt, turnstile, two, times),
    )
}

#[test]
fn one_pass_visits_in_order(rt: HostRuntime) -> Result<(), Fail> {
    let Ok((turnstile, mut pass)) = Turnstile::start(rt.alloc(), Counter { sum: 0 }) else {
        panic!(rt; "there is memory")
    };
    let replies = three_visits(&rt, &turnstile, &mut pass);
    assert!(rt; replies == (Ok(5), Err(()), Ok(12)));
    let (desk, _turns) = turnstile.close(pass);
    assert!(rt; desk.sum == 12);
    Ok(())
}

#[test]
fn two_threads_lose_no_visit(rt: HostRuntime) -> Result<(), Fail> {
    let Ok((turnstile, mut one)) = Turnstile::start(rt.alloc(), Counter { sum: 0 }) else {
        panic!(rt; "there is memory")
    };
    let two = turnstile.split(&mut one);
    let (mut one, two) = both_visit(&rt, &turnstile, one, two, 1000);
    turnstile.join(&mut one, two);
    let (desk, _turns) = turnstile.close(one);
    assert!(rt; desk.sum == 2000);
    Ok(())
}

#[test]
fn four_threads_lose_no_visit(rt: HostRuntime) -> Result<(), Fail> {
    let Ok((turnstile, mut one)) = Turnstile::start(rt.alloc(), Counter { sum: 0 }) else {
        panic!(rt; "there is memory")
    };
    let two = turnstile.split(&mut one);
    let three = turnstile.split(&mut one);
    let four = turnstile.split(&mut one);
    let ((mut one, two), (three, four)) = join(
        &rt,
        || both_visit(&rt, &turnstile, one, two, 250),
        || both_visit(&rt, &turnstile, three, four, 400),
    );
    turnstile.join(&mut one, three);
    turnstile.join(&mut one, two);
    turnstile.join(&mut one, four);
    let (desk, _turns) = turnstile.close(one);
    assert!(rt; desk.sum == 1300);
    Ok(())
}
