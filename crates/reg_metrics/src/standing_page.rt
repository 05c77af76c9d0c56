// What the page says of the process.
use crate::families::{by_label, counter, gauge, push_label};
use crate::process::ProcessNumbers;
use crate::stage::Stage;
use base_text::Listed;
use exposition::{Family, Fixed, Name, Number, Sample, Samples};
use std::alloc::{AllocError, Global};

/// Appends how far the process is, with its version and its command. The only error is out of
/// memory.
pub fn stage_families(
    alloc: Global,
    version: &'static str,
    command: &'static str,
    stage: Stage,
    out: &mut Vec<Family>,
) -> Result<(), AllocError> {
    out.push(info(alloc, version, command)?)?;
    out.push(gauge(
        alloc,
        Name::of("registry_ready"),
        "Whether /ready says 200: 1 where it does.",
        Number::whole(u64::from(stage == Stage::Ready)),
    )?)?;
    let stages = [
        (Stage::Starting.word(), u64::from(stage == Stage::Starting)),
        (Stage::Ready.word(), u64::from(stage == Stage::Ready)),
        (Stage::Lost.word(), u64::from(stage == Stage::Lost)),
        (Stage::Declined.word(), u64::from(stage == Stage::Declined)),
        (Stage::Full.word(), u64::from(stage == Stage::Full)),
        (Stage::Unlawful.word(), u64::from(stage == Stage::Unlawful)),
        (
            Stage::Unreachable.word(),
            u64::from(stage == Stage::Unreachable),
        ),
        (Stage::Ended.word(), u64::from(stage == Stage::Ended)),
    ];
    out.push(Family {
        name: Name::of("registry_stage"),
        help: Fixed::of(
            "How far the process is: 1 for the word that /ready says, 0 for the others.",
        ),
        samples: Samples::Gauge(by_label(alloc, "stage", &stages)?),
    })?;
    Ok(())
}

fn info(alloc: Global, version: &'static str, command: &'static str) -> Result<Family, AllocError> {
    let mut labels = Vec::new(alloc);
    push_label("version", version, &mut labels)?;
    push_label("command", command, &mut labels)?;
    let mut samples = Vec::new(alloc);
    samples.push(Sample {
        labels: Listed::from(labels),
        number: Number::whole(1),
    })?;
    Ok(Family {
        name: Name::of("registry_info"),
        help: Fixed::of("Which version and command run: always 1."),
        samples: Samples::Gauge(Listed::from(samples)),
    })
}

/// Appends the numbers that the system has of the process. `begun` is when it began, in
/// microseconds since 1970. The only error is out of memory.
pub fn process_families(
    alloc: Global,
    numbers: &ProcessNumbers,
    begun: u64,
    out: &mut Vec<Family>,
) -> Result<(), AllocError> {
    out.push(counter(
        alloc,
        Name::of("process_cpu_seconds_total"),
        "Time of processors that the process took, in seconds.",
        Number::seconds(numbers.cpu),
    )?)?;
    out.push(gauge(
        alloc,
        Name::of("process_resident_memory_bytes"),
        "Bytes of memory that the process has.",
        Number::whole(numbers.memory),
    )?)?;
    out.push(gauge(
        alloc,
        Name::of("process_virtual_memory_bytes"),
        "Bytes of addresses that the process has.",
        Number::whole(numbers.addresses),
    )?)?;
    out.push(gauge(
        alloc,
        Name::of("process_start_time_seconds"),
        "When the process began, in seconds since 1970.",
        Number::seconds(begun),
    )?)?;
    Ok(())
}
