// The burst limit by a formula, where there is one.
ghost use Rattle.setting.specs.Answers.{SideBySide, WideSteps};
ghost use Rattle.setting.specs.Settings.{plan};

use crate::setting::Setting;

impl Setting {
    // With no interleaving (M = 0) the limit is t.
    #[tactic(auto, using(crate::proofs::Facts::side_by_side))]
    pub fn limit_side_by_side(&self) -> Option<usize>
        ensures { SideBySide (plan self.now) result }
    {
        (self.step == 0).then_some(self.sizes.repairs)
    }

    // Where each branch waits at least a whole word longer than the one before it (M ≥ q), the limit is f×(M×I+1) + r×I,
    // with f the quotient and r the remainder of t by q.
    #[tactic(auto, using(crate::proofs::Facts::wide_parts, crate::proofs::Facts::by_wide_steps))]
    pub fn limit_of_wide_steps(&self) -> Option<usize>
        ensures { WideSteps (plan self.now) result }
    {
        (self.step >= self.parts).then(|| {
            let whole = self.sizes.repairs / self.parts;
            let rest = self.sizes.repairs % self.parts;
            whole * (self.step * self.block + 1) + rest * self.block
        })
    }
}
