// A sender's states. They are moved from stage to stage and hold plain numbers only; memory and coder are lent at each call.
ghost use Rattle.std.specs.Prelude.{◌≤◌};

use scrambler::Earlier;
use setting::Setting;

// While it sends.
#[derive(Drop)]
pub struct Sending {
    pub(crate) setting: Setting,
    // the scrambler's earlier bits
    pub(crate) earlier: Earlier,
    // the words sent
    pub(crate) words: usize,
    ghost count: { words ≤ 1000000 },
}

// After its end.
#[derive(Drop)]
pub struct Draining {
    pub(crate) setting: Setting,
    pub(crate) words: usize,
    pub(crate) drained: usize,
    ghost count: { words ≤ 1000000 },
    ghost drains: { drained ≤ setting.lag },
}
