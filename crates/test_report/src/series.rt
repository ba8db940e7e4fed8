//! Series of worked lengths.
use std::test::Fail;
use time_series::{Peaks, Series};

#[test]
fn there_is_a_point_for_each_of_4096_seconds(rt: HostRuntime) -> Result<(), Fail> {
    let mut series = Series::new(rt.alloc())?;
    series.add(4095, 7);
    series.add(0, 3);
    series.add(4095, 1);
    assert!(rt; series.width() == 1);
    assert!(rt; series.points().len() == 4096);
    assert!(rt; series.points().first() == Some(&3));
    assert!(rt; series.points().last() == Some(&8));
    series.add(4096, 5);
    assert!(rt; series.width() == 2);
    assert!(rt; series.points().len() == 2049);
    assert!(rt; series.points().last() == Some(&5));
    Ok(())
}

#[test]
fn a_longer_series_has_wider_buckets(rt: HostRuntime) -> Result<(), Fail> {
    let mut series = Series::new(rt.alloc())?;
    for second in 0..5000 {
        series.add(second, 1);
    }
    assert!(rt; series.width() == 2);
    assert!(rt; series.points().len() == 2500);
    assert!(rt; series.points().iter().all(|point| *point == 2));
    // Nobody counts for a day, and then once.
    series.add(86_400, 9);
    assert!(rt; series.width() == 32);
    assert!(rt; series.points().len() == 2701);
    assert!(rt; series.points().last() == Some(&9));
    Ok(())
}

#[test]
fn a_wider_bucket_keeps_the_greater_peak(rt: HostRuntime) -> Result<(), Fail> {
    let mut peaks = Peaks::new(rt.alloc())?;
    peaks.add(0, 3);
    peaks.add(1, 7);
    peaks.add(1, 5);
    assert!(rt; peaks.points() == [3, 7].as_slice());
    peaks.add(4096, 1);
    assert!(rt; peaks.points().len() == 2049);
    assert!(rt; peaks.points().first() == Some(&7));
    assert!(rt; peaks.points().last() == Some(&1));
    Ok(())
}
