// Which jobs of a day are admitted: each caller has an allowance of steps, which is taken down as its jobs are admitted.
#![tactic(auto)]

ghost use Rattle.std.specs.Prelude.{◌≡◌, ◌<◌};
ghost use Rattle.admission.specs.Admission.{fits};
ghost use Rattle.admission.specs.Allowances.{rest_of, allowance_of, callers_after, allowances_of};

// How many callers there are: check 10 lets none above 15 pass.
pub const CALLERS: usize = 16;

// What one caller has left of the day's steps.
#[derive(Clone, Copy)]
pub struct Allowance {
    pub left: usize,
}

// Takes a job's declared steps down, if there are as many left, and says whether there were.
#[tactic(auto, unfolding(crate::specs::Admission::fits, crate::specs::Admission::rest))]
pub fn admit(allowance: &mut Allowance, steps: usize) -> bool
    ensures answer { result ≡ fits allowance.old.left steps }
    ensures taken { allowance.new ≡ rest_of allowance.old steps }
{
    if allowance.left < steps {
        return false;
    }
    allowance.left -= steps;
    true
}

// Answers a job of a caller: its own allowance of those lent is taken down, if there are as many steps left.
pub fn admit_caller(callers: &mut [Allowance; CALLERS], caller: usize, steps: usize) -> bool
    requires { caller < 16 }
    ensures answer { result ≡ fits (allowance_of callers.old caller).left steps }
    ensures taken { callers.new ≡ callers_after callers.old caller steps }
{
    admit(&mut callers[caller], steps)
}

// Each caller has the whole limit.
pub fn full_allowances(limit: usize) -> [Allowance; CALLERS]
    ensures { result ≡ allowances_of limit }
{
    [Allowance { left: limit }; CALLERS]
}
