//! Processor time.
use anyhow::Result;
use std::time::CpuClock;

/// The processor time of the process so far, in nanoseconds.
pub fn cpu_nanos(rt: &impl CpuClock) -> Result<u128> {
    let time = rt.process_cpu_time()?;
    Ok(time.as_nanos())
}

/// The nanoseconds of processor time since `cpu_nanos` gave `start`.
pub fn nanos_since(rt: &impl CpuClock, start: u128) -> Result<u128> {
    Ok(cpu_nanos(rt)?.saturating_sub(start))
}
