//! The table of angles that sines and directions are found by.

ghost use Rattle.std.specs.Prelude.{◌≡◌, ◌≤◌, ◌<◌, ◌+◌};
ghost use Rattle.mp_trig.specs.Sines.{angle_entry};

/// The angles whose tangents are 2^-k, for k from 1 on, in units of 2^-20 degree.
const ARCTANGENTS: [u32; 26] = [
    27855475, 14718068, 7471121, 3750058, 1876857, 938658, 469357, 234682, 117342, 58671, 29335,
    14668, 7334, 3667, 1833, 917, 458, 229, 115, 57, 29, 14, 7, 4, 2, 1,
];

pub(crate) fn angle_entry(k: u32) -> u32
    requires first { 1 ≤ k }
    requires last { k ≤ 26 }
    ensures exact { result ≡ angle_entry k }
    ensures positive { 0 < result }
    ensures small { result < 33554432 }
{
    ARCTANGENTS[k as usize - 1]
}
