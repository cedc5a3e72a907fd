/// Makes a call, and once more on the same values if an allocation failed. The second try has to succeed.
macro_rules! again {
    ($rt:expr; $call:expr) => {
        assert!($rt; $call.is_some() || $call.is_some())
    };
}

mod at_a_door;
mod events;
mod manager;
mod outcome;
mod policy;
mod programs;
mod questions;
mod tables;
mod texts;
