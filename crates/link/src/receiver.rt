// A receiver's states. They are moved from stage to stage and hold plain numbers only; memory and coder are lent at each call.
ghost use Rattle.std.specs.Prelude.{◌≤◌};

use scrambler::Earlier;
use setting::Setting;

// While it fills.
#[derive(Drop)]
pub struct Filling {
    pub(crate) setting: Setting,
    pub(crate) filled: usize,
    ghost fills: { filled ≤ setting.lag },
}

// After its start.
#[derive(Drop)]
pub struct Running {
    pub(crate) setting: Setting,
    // the scrambler's earlier bits; none where the coder lost the last word
    pub(crate) earlier: Option<Earlier>,
    // the words received, lost ones too
    pub(crate) words: usize,
    ghost count: { words ≤ 1000000 },
}
