// The closed form: what the sums of a profile come to at any one sample, by the widths of its intervals alone.
ghost use Rattle.std.specs.Prelude.{[], ◌∷◌, ◌≡◌, ◌-◌, ◌≤◌, ◌*ℤ◌};
ghost use Rattle.std.specs.Int.Signed.{quot_z};
ghost use Rattle.planner.specs.Outcome.{most_samples};
ghost use Rattle.motion.specs.Inner.ClosedForm.{products_over, difference_of, DifferenceFits, ScaledFits};

// The falling factorials k, k(k−1), k(k−1)(k−2) and k(k−1)(k−2)(k−3), or differences of such.
#[derive(Clone, Copy)]
pub(crate) struct Products {
    pub first: i64,
    pub second: i64,
    pub third: i64,
    pub fourth: i64,
}

impl Products {
    fn at(k: u64) -> Products
        requires { k ≤ most_samples }
        ensures { result ≡ products_over [] k }
    {
        let first = k as i64;
        let second = first * (first - 1);
        let third = second * (first - 2);
        let fourth = third * (first - 3);
        Products {
            first,
            second,
            third,
            fourth,
        }
    }

    fn less(self, late: Products) -> Products
        requires { DifferenceFits self late }
        ensures { result ≡ difference_of self late }
    {
        let first = self.first - late.first;
        let second = self.second - late.second;
        let third = self.third - late.third;
        let fourth = self.fourth - late.fourth;
        Products {
            first,
            second,
            third,
            fourth,
        }
    }
}

// The difference over one width, and over each width more: the value at k less the same value at k−w. Before its start the later copy stays
// at 0, where every product is 0. One function over a slice of widths would call itself, and the library has no recursion. k is a
// number with its bound in a clause: each of these subtracts from it.
fn over_one(a: u64, k: u64) -> Products
    requires { k ≤ most_samples }
    ensures { result ≡ products_over (a ∷ []) k }
{
    let now = Products::at(k);
    let late = Products::at(k.saturating_sub(a));
    now.less(late)
}

fn over_two(a: u64, b: u64, k: u64) -> Products
    requires { k ≤ most_samples }
    ensures { result ≡ products_over (b ∷ a ∷ []) k }
{
    let now = over_one(a, k);
    let late = over_one(a, k.saturating_sub(b));
    now.less(late)
}

pub(crate) fn over_three(a: u64, b: u64, c: u64, k: u64) -> Products
    requires { k ≤ most_samples }
    ensures { result ≡ products_over (c ∷ b ∷ a ∷ []) k }
{
    let now = over_two(a, b, k);
    let late = over_two(a, b, k.saturating_sub(c));
    now.less(late)
}

pub(crate) fn over_four(a: u64, b: u64, c: u64, e: u64, k: u64) -> Products
    requires { k ≤ most_samples }
    ensures { result ≡ products_over (e ∷ c ∷ b ∷ a ∷ []) k }
{
    let now = over_three(a, b, c, k);
    let late = over_three(a, b, c, k.saturating_sub(e));
    now.less(late)
}

// A sum of the profile: that of the profile for D = 1, which is the product divided by its factorial, times the signed D.
pub(crate) fn scaled(level: i64, product: i64, factorial: i64) -> i64
    requires { ScaledFits level product factorial }
    ensures { result ≡ level *ℤ quot_z product factorial }
{
    let unit = product / factorial;
    level * unit
}
