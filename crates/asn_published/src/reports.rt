//! The reports of all types, each with those that it refers to.
use asn_published_types::report::TypeReport;
use asn_published_types::steps::Marked;
use asn_published_write::written::Written;
use std::alloc::{AllocError, Global};

/// Of each type its index in the report, where it has one.
fn places_in_report(
    alloc: Global,
    reports: &[Option<TypeReport>],
) -> Result<Vec<Option<usize>>, AllocError> {
    let mut places = Vec::new(alloc);
    let mut count = 0usize;
    for report in reports {
        if report.is_some() {
            places.push(Some(count))?;
            count = count.saturating_add(1);
        } else {
            places.push(None)?;
        }
    }
    Ok(places)
}

/// The indices in the report of the types that a type refers to, each once.
fn used(alloc: Global, places: &[Option<usize>], uses: &[usize]) -> Result<Vec<usize>, AllocError> {
    let mut found = Vec::new(alloc);
    for entry in uses {
        if let Some(Some(place)) = places.get(*entry) {
            found.push(*place)?;
        }
    }
    found.sort()?;
    found.dedup();
    Ok(found)
}

/// The reports of all types, in their order; the types that are written, and of each report which of them it is about.
#[derive(Drop)]
pub(crate) struct Reported {
    pub report: Vec<TypeReport>,
    pub marked: Vec<Marked>,
    pub places: Vec<usize>,
    /// Of each type its index in the report, where it has one.
    pub in_report: Vec<Option<usize>>,
}

/// The reports of all types.
pub(crate) fn reports_of(alloc: Global, written: Written) -> Result<Reported, AllocError> {
    let Written {
        reports,
        marked,
        places,
        ..
    } = written;
    let in_report = places_in_report(alloc, reports.as_slice())?;
    let mut reported = Reported {
        report: Vec::new(alloc),
        marked,
        places: Vec::new(alloc),
        in_report: Vec::new(alloc),
    };
    for (report, place) in reports.into_iter().zip(places) {
        if let Some(mut report) = report {
            report.uses = used(alloc, in_report.as_slice(), report.uses.as_slice())?;
            reported.report.push(report)?;
            reported.places.push(place)?;
        }
    }
    reported.in_report = in_report;
    Ok(reported)
}
