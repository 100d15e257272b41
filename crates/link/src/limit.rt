// The burst limit of a setting and a coder, and what it means for every run of the two ends.
ghost use Rattle.std.specs.Prelude.{◌≡◌};
ghost use Rattle.runs.specs.Theorem.{RidesOut};
ghost use Rattle.setting.specs.Settings.{plan};
ghost use Rattle.link.specs.Limits.{Limits};

use crate::fitting::{frames_fit, words_fit};
use coder::{Coder, Misfit};
use setting::Setting;

// B: bursts of this length are ridden out, whatever the frames and whatever the calls were before; a burst one octet longer need not be.
pub fn burst_limit<C: Coder>(setting: &Setting, coder: &C) -> Result<usize, Misfit>
    ensures { Limits (plan setting.now) (C.Coder.code coder.now) result }
{
    if !frames_fit(setting, coder) {
        return Err(Misfit::Frame);
    }
    if !words_fit(setting, coder) {
        return Err(Misfit::Line);
    }
    Ok(limit_of_pair(setting, coder))
}

fn limit_of_pair<C: Coder>(setting: &Setting, coder: &C) -> usize
    requires { ((C.Coder.code coder.now).sizes.frame ≡ setting.now.sizes.frame) × ((C.Coder.code coder.now).sizes.word ≡ setting.now.sizes.word) × ((C.Coder.code coder.now).sizes.repairs ≡ setting.now.sizes.repairs) }
    ensures { RidesOut (plan setting.now) (C.Coder.code coder.now) result }
{
    setting.burst_limit()
}
