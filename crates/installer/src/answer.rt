// The answer to five octets: coder, K, R, I and M.
ghost use Rattle.std.specs.Prelude.{◌≡◌};
ghost use Rattle.installer.specs.Answers.{Answers, Reports, asked};
ghost use Rattle.setting.specs.Settings.{plan};

use crate::report::Report;
use coder::{Kind, Refusal};
use setting::Setting;

// What is said of a setting.
// Stays a function: it searches for the burst limit, which is more than a conversion.
fn reported(setting: &Setting) -> Report
    ensures { Reports (plan setting.now) result }
{
    Report {
        word: setting.sizes.word,
        parts: setting.parts,
        lag: setting.lag,
        burst: setting.burst_limit(),
        reach: setting.reach,
        memory: setting.memory,
    }
}

// The report of the setting that the octets ask for, or why there is none.
pub fn answer(octets: &[u8]) -> Result<Report, Refusal>
    ensures { Answers (asked octets.now) result }
{
    let [coder, frame, check, block, step] = octets else {
        return Err(Refusal::Unreadable);
    };
    let sizes = Kind::try_from(*coder)?.sizes(usize::from(*frame), usize::from(*check))?;
    let setting = Setting::new(sizes, usize::from(*block), usize::from(*step))?;
    Ok(reported(&setting))
}
