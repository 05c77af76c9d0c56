//! Pages of metrics in Prometheus' text format, version 0.0.4.
//!
//! A page is a list of families ([`Family`]): the name of a metric, its help text, and its samples,
//! which make it a counter, a gauge or a histogram. [`page_text`] writes it.
//!
//! One idea: what the format doesn't allow can't be built. A [`Name`] is a valid metric name and a
//! [`LabelName`] a valid label name. A [`Series`] has rising bounds and one count more than bounds.
//! A [`Fixed`] text is part of the program, so no text of a client gets onto a page. Help texts and
//! label values are escaped.
//!
//! Numbers are exact ([`Number`]): whole numbers, or seconds with at most six places after the
//! point.
//!
//! This crate measures nothing (`reg_meters`), serves nothing and knows no metric of the registry
//! (`reg_metrics`).
//!
//! The main contract is the clause `format` of [`page_text`]: the text is of the format. Two laws:
//! pages with one text are the same page ([`pages_are_read_back`]), and the buckets of a histogram
//! rise up to its count ([`buckets_rise`]).
//!
//! Tests: `log_cases` and `test_service`.
#![tactic(auto)]

mod escaping;
mod label;
mod laws;
mod lines;
mod name;
mod number;
mod page;
mod series;
mod writing;

pub use label::{LabelName, LabelPair};
pub use laws::{buckets_rise, lines_are_read_back, pages_are_expositions, pages_are_read_back};
pub use name::{Fixed, Name};
pub use number::Number;
pub use page::{Family, Sample, Samples};
pub use series::Series;
pub use writing::page_text;
