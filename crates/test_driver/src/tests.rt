//! The driver by its requests: tables of runs over each kind of store.
mod asked;
mod cases;
mod stores;

use cases::CASES;
use std::alloc::{AllocError, Global};
use std::process::Abort;
use std::test::Fail;
use stores::started;
use uda_disk::Request;
use uda_driver::{Driver, RunError};
use uda_image::MemImage;

#[test]
fn cases_are_answered(rt: HostRuntime) -> Result<(), Fail> {
    for case in &CASES {
        let wrong = case.first_wrong(&rt)?;
        assert!(rt;
            wrong.is_none(),
            "{}: run {}",
            case.name,
            wrong.unwrap_or(0)
        );
    }
    Ok(())
}

// Returns this many requests for the state of unit 0.
fn statuses(alloc: Global, count: usize) -> Result<Vec<Request>, AllocError> {
    let mut requests = Vec::new(alloc);
    for _ in 0..count {
        requests.push(Request::Status { unit: 0 })?;
    }
    Ok(requests)
}

// Runs this many requests, and returns the number of answers.
fn answers_of(
    alloc: Global,
    driver: &mut Driver<MemImage>,
    count: usize,
) -> Result<Result<usize, RunError>, AllocError> {
    let requests = statuses(alloc, count)?;
    Ok(match driver.run(&requests) {
        Ok(answers) => Ok(answers.len()),
        Err(error) => Err(error),
    })
}

// Asserts that a driver runs 4,096 requests, and no more.
fn assert_most(
    rt: &(impl Alloc<A = Global> + Abort),
    driver: &mut Driver<MemImage>,
) -> Result<(), Fail> {
    let refused = answers_of(rt.alloc(), driver, 4097)?;
    assert!(rt; refused == Err(RunError::TooMany));
    let answered = answers_of(rt.alloc(), driver, 4096)?;
    assert!(rt; answered == Ok(4096));
    Ok(())
}

#[test]
fn too_many_requests(rt: HostRuntime) -> Result<(), Fail> {
    let mut driver = started(rt.alloc(), MemImage::new(rt.alloc(), 8)?, false)?;
    assert_most(&rt, &mut driver)
}
