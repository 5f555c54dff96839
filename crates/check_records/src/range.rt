// Nominal R', G', B' and Y' codes. They are written here again, so that a wrong range of the conversion shows as a difference.
ghost use Rattle.std.specs.Prelude.{◌≡◌, ◌*◌, ◌≤◌};
ghost use Rattle.check_records.specs.Records.{scale_of};

fn scale(system: u32) -> u16
    ensures { (result ≡ scale_of system) × (1 ≤ result) × (result ≤ 16) }
{
    match system {
        1 => 1,
        2 | 3 => 4,
        _ => 16,
    }
}

// 16s.
pub fn black(system: u32) -> u16
    ensures { (result ≡ 16 * scale_of system) × (16 ≤ result) × (result ≤ 256) }
{
    16 * scale(system)
}

// 235s.
pub fn white(system: u32) -> u16
    ensures { (result ≡ 235 * scale_of system) × (result ≤ 3760) }
{
    235 * scale(system)
}
