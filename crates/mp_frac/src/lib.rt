//! Times as fractions, and the divisors that they need.
//!
//! A time is a number of ticks over the number of ticks in a second, and is never rounded. All calls are
//! exact, and none takes memory. They answer `None` alone: where a number isn't below 2^32, or a time
//! isn't whole in a scale.
#![tactic(auto)]

mod divisors;
mod law;
#[cfg(test)]
mod tests;
mod time;

pub use divisors::{gcd, lcm};
pub use law::wholeness_is_division;
pub use time::{Frac, compare, least_multiple, whole_in};
