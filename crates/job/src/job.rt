// A job's four states. Each call takes one and gives the next, so none can be used twice or out of turn.
use crate::settings::Settings;
use engine::{Drawing, Progress};
use formats::Depth;
use refusal::Refusal;
use rules::Rule;
use std::marker::Model;

// Settings that are not tested yet, as clauses see them.
#[derive(Drop)]
pub struct Draft {
    pub(crate) settings: Settings,
}

impl Model for Draft {
    ghost use Rattle.job.specs.declared.settings.Settings.{Settings};

    ghost Value = { Settings };

    ghost view = { λ d. d.settings };
}

// A draft that was declined, as it was, and the ground.
#[derive(Drop)]
pub struct Declined {
    pub draft: Draft,
    pub refusal: Refusal,
}

// What has passed the tests against a memory of some size. Clauses see a work of which nothing is drawn.
#[derive(Drop)]
pub struct Cleared {
    pub(crate) drawing: Drawing<Rule, Depth>,
    pub(crate) size: u32,
}

impl Model for Cleared {
    ghost use Rattle.job.specs.Works.{Work, LiesInside};

    ghost Value = { Work };

    ghost use Rattle.job.specs.States.{cleared_work};

    ghost view = { cleared_work };

    ghost invariant = { λ c. LiesInside (cleared_work c) };
}

// What is drawn by feeds or runs. Clauses see its work.
#[derive(Drop)]
pub struct Begun {
    pub(crate) drawing: Drawing<Rule, Depth>,
    pub(crate) size: u32,
    pub(crate) progress: Progress,
}

impl Model for Begun {
    ghost use Rattle.job.specs.Works.{Work, Keeps};

    ghost Value = { Work };

    ghost use Rattle.job.specs.States.{work_of};

    ghost view = { work_of };

    ghost invariant = { λ b. Keeps (work_of b) };
}

// What has ended. Clauses see the pixels drawn.
#[derive(Drop)]
pub struct Closed {
    pub(crate) drawn: u32,
}

impl Model for Closed {
    ghost use Rattle.std.specs.Prelude.{ℕ};

    ghost Value = { ℕ };

    ghost view = { λ c. c.drawn };
}
