//! What a region saves over the spill slot, and what its moves cost.

/// How many registers there are that arguments are passed in.
pub(crate) const ARGUMENTS: usize = 8;

/// What a region saves over the slot, in half instructions, and what its moves cost.
#[derive(Clone, Copy, Default)]
pub(crate) struct Balance {
    /// what its accesses save
    pub(crate) gain: u64,

    /// what else it saves in the register of each argument, by which the value comes or goes
    pub(crate) through: [u64; ARGUMENTS],

    /// what loading costs
    pub(crate) loads: u64,

    /// what saving costs where each new value is saved at once
    pub(crate) eager: u64,

    /// what it costs where values are saved as far as the slot is wanted
    pub(crate) lazy: u64,

    /// whether it has new values
    pub(crate) has_new: bool,
}

impl Balance {
    /// The balance of both.
    pub(crate) fn joined(self, other: Balance) -> Balance {
        let mut through = self.through;
        for argument in 0..ARGUMENTS {
            through[argument] = through[argument].saturating_add(other.through[argument]);
        }
        Balance {
            gain: self.gain.saturating_add(other.gain),
            through,
            loads: self.loads.saturating_add(other.loads),
            eager: self.eager.saturating_add(other.eager),
            lazy: self.lazy.saturating_add(other.lazy),
            has_new: self.has_new || other.has_new,
        }
    }

    /// Whether each new value is saved at once, or there is none.
    pub(crate) fn is_saved(&self) -> bool {
        !self.has_new || self.eager < self.lazy
    }

    /// What is left of a gain, where new values are saved as it costs less.
    fn left_of(&self, gain: u64) -> u64 {
        let stores = if self.has_new {
            self.eager.min(self.lazy)
        } else {
            0
        };
        gain.saturating_sub(self.loads).saturating_sub(stores)
    }

    /// What it saves besides, in the register of that argument.
    pub(crate) fn through(&self, argument: usize) -> u64 {
        self.through.get(argument).copied().unwrap_or(0)
    }

    /// What is left of the gain, in the register of that argument.
    pub(crate) fn net_in(&self, argument: usize) -> u64 {
        self.left_of(self.gain.saturating_add(self.through(argument)))
    }

    /// What is left of it in the register that saves most.
    pub(crate) fn best(&self) -> u64 {
        let most = self.through.iter().copied().max().unwrap_or(0);
        self.left_of(self.gain.saturating_add(most))
    }

    /// What is left of it in any register.
    pub(crate) fn net(&self) -> u64 {
        self.left_of(self.gain)
    }
}
