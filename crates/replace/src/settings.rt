//! The settings of replacement by name, as a site's configuration lists them.
ghost use Rattle.std.specs.Prelude.{◌≡◌, true, false};
ghost use Rattle.replace.specs.declared.datanode.Policy.TheVariants.{Default};
ghost use Rattle.replace.specs.Names.{key_of, is_true, policy_of};
ghost use Rattle.replace.specs.Listed.{defaults, changed, chosen, listed, texts};

use crate::datanode::{Policy, ReplaceDatanodeOnFailure};

/// The three settings, with their values so far.
#[derive(Clone, Copy, Debug, PartialEq, Eq)]
pub struct Settings {
    enable: bool,
    policy: Policy,
    best_effort: bool,
}

// A setting of replacement.
#[derive(Clone, Copy)]
enum Key {
    Enable,
    Policy,
    BestEffort,
}

// The setting of that name, letter for letter.
fn key_of(name: &str) -> Option<Key>
    ensures { result ≡ key_of name.now }
{
    match name {
        "dfs.client.block.write.replace-datanode-on-failure.enable" => Some(Key::Enable),
        "dfs.client.block.write.replace-datanode-on-failure.policy" => Some(Key::Policy),
        "dfs.client.block.write.replace-datanode-on-failure.best-effort" => Some(Key::BestEffort),
        _ => None,
    }
}

// A switch is on at `true` alone, in letters of either case.
fn is_true(value: &str) -> bool
    ensures { result ≡ is_true value.now }
{
    value.eq_ignore_ascii_case("true")
}

/// The policy of that name, in letters of either case; any other word is the default policy.
impl From<&str> for Policy {
    ghost from_gives = { λ name policy. policy ≡ policy_of name.now };

    fn from(name: &str) -> Self {
        if name.eq_ignore_ascii_case("NEVER") {
            Policy::Never
        } else if name.eq_ignore_ascii_case("ALWAYS") {
            Policy::Always
        } else {
            Policy::Default
        }
    }
}

/// What holds where nothing is set: replacement by the default policy, without best effort.
impl Default for Settings {
    ghost is_default = { λ settings. settings ≡ defaults };

    fn default() -> Self {
        Settings {
            enable: true,
            policy: Policy::Default,
            best_effort: false,
        }
    }
}

impl Settings {
    /// The settings where nothing is set.
    pub fn new() -> Self
        ensures { result ≡ defaults }
    {
        Settings::default()
    }

    /// Takes one setting. A name counts letter for letter, and one that is none of the three changes nothing.
    pub fn set(&mut self, name: &str, value: &str)
        ensures { self.new ≡ changed self.old name.now value.now }
    {
        match key_of(name) {
            Some(Key::Enable) => self.enable = is_true(value),
            Some(Key::Policy) => self.policy = Policy::from(value),
            Some(Key::BestEffort) => self.best_effort = is_true(value),
            None => {}
        }
    }

    /// The settings of a list of names and values. Of each name the last value counts.
    pub fn from_pairs(pairs: &[(&str, &str)]) -> Self
        ensures { result ≡ listed (texts pairs.now) }
    {
        let mut settings = Settings::default();
        for (name, value) in pairs {
            settings.set(name, value);
        }
        settings
    }

    /// What a writer does under these settings. Switched off, it never replaces and makes no second effort.
    pub fn replace_datanode(&self) -> ReplaceDatanodeOnFailure
        ensures { result ≡ chosen self.now }
    {
        if !self.enable {
            return ReplaceDatanodeOnFailure::new(Policy::Disable, false);
        }
        ReplaceDatanodeOnFailure::new(self.policy, self.best_effort)
    }
}
