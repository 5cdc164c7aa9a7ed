// The search for the least interval that reaches a target.
ghost use Rattle.std.specs.Prelude.{◌≡◌, ◌^◌, ◌≤◌, min, max};
ghost use Rattle.planner.specs.Least.{least};
ghost use Rattle.planner.specs.Inner.Search.{growth, scaled, LeastWithin, SearchArgs, ReachArgs};

// m^d. A match is quicker here than the loop of `pow`: d is the same in all turns of a search. A closure for each product would stand at all
// ten calls and put its rising into every contract.
#[tactic(auto, using(crate::proofs::Sets::pow_set))]
fn power(m: u64, d: u64) -> u64
    requires { (m ≤ 2 ^ 15) × (d ≤ 3) }
    ensures { result ≡ m ^ d }
{
    match d {
        0 => 1,
        1 => m,
        2 => m * m,
        _ => m * m * m,
    }
}

// The least n from lo to hi with n·(u+n)^d ≥ t, or hi where there is none below it. The span is
// halved until one number is left. It need not go past t, since n·(u+n)^d is at least n. Document 02 names the form: the loop leaves with
// its least number.
fn search(u: u64, d: u64, t: u64, lo: u64, hi: u64) -> u64
    requires { SearchArgs 4097 u d lo hi }
    ensures { LeastWithin t (growth u d) lo hi result }
{
    let mut from = lo;
    let mut to = hi.min(lo.max(t));
    loop {
        if from == to {
            break from;
        }
        let mid = (from + to) / 2;
        let reached = mid * power(u + mid, d);
        if reached < t {
            from = mid + 1;
        } else {
            to = mid;
        }
    }
}

// The least n from lo on with k·n·(u+n)^d ≥ t, or hi where there is none below it. One division takes
// the bound k to the other side, so that no product passes 64 bits.
pub(crate) fn least_interval(k: u64, u: u64, d: u64, t: u64, lo: u64, hi: u64) -> u64
    requires { ReachArgs 4097 k u d t lo hi }
    ensures { result ≡ max lo (min hi (least t (scaled k u d))) }
{
    search(u, d, t.div_ceil(k), lo, hi)
}
