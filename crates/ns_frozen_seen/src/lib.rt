//! Frozen cells over their code, with what is found of them once: what is asked of values, classes, objects and sites.
//! `specs/Seen.antt` says what is known of cells that are seen (`IsSeen`).
//! Stands between ns_frozen_tables and ns_frozen_fitting.
#![tactic(auto)]

pub mod classes;
pub mod climbs;
pub mod keepers;
pub mod objects;
pub mod plain;
pub mod seen;
pub mod sites;
pub mod values;
