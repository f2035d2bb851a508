//! Which bodies the environments of frozen data fit: found once, as far as blocks and frames tell, and asked of any.
//! `specs/Environments.antt` says what one step outwards is, and `fits_environment` in ns_frozen what fits.
//! Stands between ns_frozen_seen and ns_frozen_valid.
#![tactic(auto)]

pub mod environments;
pub mod fitting;
