use mp_trig::{TrigFault, angle_of, mexp, mlog, pyth_add, pyth_sub, sin_cos, square_root};

const DEGREE: i32 = 1 << 20;

type Answer = Result<i32, TrigFault>;

#[test]
fn calls_answer_as_their_rows_say(rt: HostRuntime) {
    let tables = [
        ROOTS,
        DIRECTIONS,
        DIRECTION_ENTRIES,
        SINES,
        SINE_ENTRIES,
        LOGARITHMS,
        LOGARITHM_ENTRIES,
        EXPONENTIALS,
        EXPONENTIAL_ENTRIES,
    ];
    for table in tables {
        for row in table.lines() {
            assert_eq!(rt; holds(row), Some(true), "{row}");
        }
    }
}

/// Whether the call before a row's `=` answers what stands behind it; nothing for a row that cannot be read.
fn holds(row: &str) -> Option<bool> {
    let (call, want) = row.split_once(" = ")?;
    let (name, arguments) = call.split_once(' ')?;
    match name {
        "sin_cos" => Some(is_pair(sin_cos(number(arguments)?), want)),
        "sin_cos_of_degrees" => Some(is_pair(sin_cos(degrees(arguments)?), want)),
        _ => Some(is_answer(answer(name, arguments)?, want)),
    }
}

fn answer(name: &str, arguments: &str) -> Option<Answer> {
    match name {
        "square_root" => Some(square_root(number(arguments)?)),
        "mlog" => Some(mlog(number(arguments)?)),
        "mexp" => Some(mexp(number(arguments)?)),
        _ => answer_of_two(name, arguments.split_once(' ')?),
    }
}

fn answer_of_two(name: &str, (first, second): (&str, &str)) -> Option<Answer> {
    match name {
        "pyth_add" => Some(pyth_add(number(first)?, number(second)?)),
        "pyth_sub" => Some(pyth_sub(number(first)?, number(second)?)),
        "angle_of" => angle(first.parse().ok()?, second.parse().ok()?),
        _ => None,
    }
}

/// The angle, where the coordinates are as small as the call requires.
fn angle(x: i64, y: i64) -> Option<Answer> {
    if x.unsigned_abs() < 1 << 62 && y.unsigned_abs() < 1 << 62 {
        Some(angle_of(x, y))
    } else {
        None
    }
}

fn number(text: &str) -> Option<i32> {
    text.parse().ok()
}

fn degrees(text: &str) -> Option<i32> {
    number(text)?.checked_mul(DEGREE)
}

fn is_answer(answer: Answer, want: &str) -> bool {
    match answer {
        Ok(value) => number(want) == Some(value),
        Err(TrigFault::OutOfDomain) => want == "OutOfDomain",
        Err(TrigFault::Overflow) => want == "Overflow",
    }
}

fn is_pair(answer: (i32, i32), want: &str) -> bool {
    match want.split_once(' ') {
        Some((sine, cosine)) => number(sine) == Some(answer.0) && number(cosine) == Some(answer.1),
        None => false,
    }
}

/// Roots, which are the nearest whole numbers of units.
const ROOTS: &str = "\
square_root 0 = 0
square_root 1 = 256
square_root 2 = 362
square_root 65535 = 65535
square_root 65536 = 65536
square_root 65537 = 65536
square_root 131072 = 92682
square_root 262144 = 131072
square_root 2147483647 = 11863283
square_root -1 = OutOfDomain
square_root -2147483648 = OutOfDomain
pyth_add 0 0 = 0
pyth_add 0 -1 = 1
pyth_add 1 1 = 1
pyth_add 2 1 = 2
pyth_add 3 4 = 5
pyth_add -3 4 = 5
pyth_add -65536 65536 = 92682
pyth_add 2147483647 46340 = 2147483647
pyth_add 2147483647 46341 = Overflow
pyth_add -2147483648 0 = Overflow
pyth_add -2147483648 -2147483648 = Overflow
pyth_sub 0 0 = 0
pyth_sub 0 1 = OutOfDomain
pyth_sub 1 0 = 1
pyth_sub -2 1 = 2
pyth_sub 5 -4 = 3
pyth_sub 5 5 = 0
pyth_sub 5 6 = OutOfDomain
pyth_sub 5 -6 = OutOfDomain
pyth_sub -65536 -32768 = 56756
pyth_sub -2147483648 46340 = Overflow
pyth_sub -2147483648 46341 = 2147483647
pyth_sub -2147483648 2147483647 = 65536
pyth_sub 2147483647 -2147483648 = OutOfDomain
";

/// Directions of all octants, and legs far apart.
const DIRECTIONS: &str = "\
angle_of 0 0 = OutOfDomain
angle_of 1 0 = 0
angle_of 0 1 = 94371840
angle_of -1 0 = 188743680
angle_of 0 -1 = -94371840
angle_of 1 1 = 47185919
angle_of -1 1 = 141557761
angle_of -1 -1 = -141557761
angle_of 1 -1 = -47185919
angle_of 4 3 = 38660889
angle_of 3 4 = 55710951
angle_of -3 4 = 133032729
angle_of -4 3 = 150082791
angle_of -4 -3 = -150082791
angle_of -3 -4 = -133032729
angle_of 3 -4 = -55710951
angle_of 4 -3 = -38660889
angle_of 4611686018427387903 1 = 0
angle_of 4611686018427387903 4611686018427387903 = 47185919
angle_of -1 4611686018427387903 = 94371840
angle_of 536870912 1 = 0
angle_of 536870911 1 = 0
";

/// Where the shorter leg is 2^-k of the longer one, for k from 1 on, and where it is a unit more.
const DIRECTION_ENTRIES: &str = "\
angle_of 268435456 134217728 = 27855472
angle_of 268435456 134217729 = 27855475
angle_of 268435456 67108864 = 14718066
angle_of 268435456 67108865 = 14718068
angle_of 268435456 33554432 = 7471120
angle_of 268435456 33554433 = 7471121
angle_of 268435456 16777216 = 3750058
angle_of 268435456 16777217 = 3750058
angle_of 268435456 8388608 = 1876858
angle_of 268435456 8388609 = 1876857
angle_of 268435456 4194304 = 938657
angle_of 268435456 4194305 = 938658
angle_of 268435456 2097152 = 469357
angle_of 268435456 2097153 = 469357
angle_of 268435456 1048576 = 234682
angle_of 268435456 1048577 = 234682
angle_of 268435456 524288 = 117341
angle_of 268435456 524289 = 117342
angle_of 268435456 262144 = 58670
angle_of 268435456 262145 = 58671
angle_of 268435456 131072 = 29335
angle_of 268435456 131073 = 29335
angle_of 268435456 65536 = 14667
angle_of 268435456 65537 = 14668
angle_of 268435456 32768 = 7333
angle_of 268435456 32769 = 7334
angle_of 268435456 16384 = 3666
angle_of 268435456 16385 = 3667
angle_of 268435456 8192 = 1833
angle_of 268435456 8193 = 1833
angle_of 268435456 4096 = 916
angle_of 268435456 4097 = 917
angle_of 268435456 2048 = 458
angle_of 268435456 2049 = 458
angle_of 268435456 1024 = 229
angle_of 268435456 1025 = 229
angle_of 268435456 512 = 114
angle_of 268435456 513 = 115
angle_of 268435456 256 = 57
angle_of 268435456 257 = 57
angle_of 268435456 128 = 28
angle_of 268435456 129 = 29
angle_of 268435456 64 = 14
angle_of 268435456 65 = 14
angle_of 268435456 32 = 7
angle_of 268435456 33 = 7
angle_of 268435456 16 = 3
angle_of 268435456 17 = 4
angle_of 268435456 8 = 1
angle_of 268435456 9 = 2
angle_of 268435456 4 = 0
angle_of 268435456 5 = 1
";

/// Angles of all octants, and beside them.
const SINES: &str = "\
sin_cos_of_degrees 0 = 0 268435456
sin_cos_of_degrees 30 = 134217731 232471922
sin_cos_of_degrees 45 = 189812531 189812531
sin_cos_of_degrees 60 = 232471922 134217731
sin_cos_of_degrees 90 = 268435456 0
sin_cos_of_degrees 120 = 232471922 -134217731
sin_cos_of_degrees 135 = 189812531 -189812531
sin_cos_of_degrees 150 = 134217731 -232471922
sin_cos_of_degrees 180 = 0 -268435456
sin_cos_of_degrees 210 = -134217731 -232471922
sin_cos_of_degrees 225 = -189812531 -189812531
sin_cos_of_degrees 240 = -232471922 -134217731
sin_cos_of_degrees 270 = -268435456 0
sin_cos_of_degrees 300 = -232471922 134217731
sin_cos_of_degrees 315 = -189812531 189812531
sin_cos_of_degrees 330 = -134217731 232471922
sin_cos_of_degrees 359 = -4684840 268394572
sin_cos_of_degrees 360 = 0 268435456
sin_cos_of_degrees 361 = 4684840 268394572
sin_cos_of_degrees -30 = -134217731 232471922
sin_cos_of_degrees -90 = -268435456 0
sin_cos_of_degrees 2047 = -247096138 -104886093
sin_cos_of_degrees -2048 = 248889021 -100557692
sin_cos 1 = 4 268435456
sin_cos -1 = -4 268435456
sin_cos 47185919 = 189812529 189812534
sin_cos 47185921 = 189812534 189812529
sin_cos 2147483647 = -248889019 -100557696
sin_cos -2147483648 = 248889021 -100557692
";

/// Where an entry of the table is left of 45 degrees, and where a unit less is left.
const SINE_ENTRIES: &str = "\
sin_cos 19330445 = 84886745 254660234
sin_cos 19330446 = 84886744 254660234
sin_cos 32467852 = 138108903 230181504
sin_cos 32467853 = 138108905 230181503
sin_cos 39714799 = 164803428 211890122
sin_cos 39714800 = 164803437 211890116
sin_cos 43435862 = 177602706 201283067
sin_cos 43435863 = 177602714 201283060
sin_cos 45309063 = 183791170 195648665
sin_cos 45309064 = 183791183 195648652
sin_cos 46247262 = 186823906 192754824
sin_cos 46247263 = 186823915 192754815
sin_cos 46716563 = 188323874 191289604
sin_cos 46716564 = 188323886 191289592
sin_cos 46951238 = 189069633 190552533
sin_cos 46951239 = 189069646 190552520
sin_cos 47068578 = 189441442 190182896
sin_cos 47068579 = 189441451 190182887
sin_cos 47127249 = 189627077 189997804
sin_cos 47127250 = 189627086 189997796
sin_cos 47156585 = 189719827 189905190
sin_cos 47156586 = 189719837 189905180
sin_cos 47171252 = 189766185 189858866
sin_cos 47171253 = 189766192 189858860
sin_cos 47178586 = 189789360 189835700
sin_cos 47178587 = 189789366 189835693
sin_cos 47182253 = 189800946 189824116
sin_cos 47182254 = 189800953 189824110
sin_cos 47184087 = 189806738 189818324
sin_cos 47184088 = 189806748 189818315
sin_cos 47185003 = 189809635 189815427
sin_cos 47185004 = 189809641 189815422
sin_cos 47185462 = 189811083 189813979
sin_cos 47185463 = 189811091 189813971
sin_cos 47185691 = 189811807 189813256
sin_cos 47185692 = 189811815 189813248
sin_cos 47185805 = 189812169 189812894
sin_cos 47185806 = 189812174 189812888
sin_cos 47185863 = 189812350 189812713
sin_cos 47185864 = 189812357 189812705
sin_cos 47185891 = 189812441 189812622
sin_cos 47185892 = 189812445 189812617
sin_cos 47185906 = 189812486 189812577
sin_cos 47185907 = 189812492 189812570
sin_cos 47185913 = 189812509 189812554
sin_cos 47185914 = 189812515 189812548
sin_cos 47185916 = 189812520 189812543
sin_cos 47185917 = 189812523 189812539
sin_cos 47185918 = 189812526 189812537
sin_cos 47185919 = 189812529 189812534
sin_cos 47185919 = 189812529 189812534
sin_cos 47185920 = 189812531 189812531
";

/// Logarithms, those of no positive number among them.
const LOGARITHMS: &str = "\
mlog -2147483648 = OutOfDomain
mlog -1 = OutOfDomain
mlog 0 = OutOfDomain
mlog 1 = -186065279
mlog 2 = -174436199
mlog 3 = -167633623
mlog 65535 = -255
mlog 65536 = 0
mlog 65537 = 256
mlog 131072 = 11629080
mlog 655360 = 38630967
mlog 178145 = 16777186
mlog 1073741824 = 162807120
mlog 1073741828 = 162807120
mlog 1073741829 = 162807120
mlog 2147483647 = 174436199
";

/// The least number that an entry of the table is taken for, after its neighbour below.
const LOGARITHM_ENTRIES: &str = "\
mlog 1431655765 = 167633624
mlog 1431655766 = 167633624
mlog 1227133513 = 165047405
mlog 1227133514 = 165047405
mlog 1145324612 = 163889896
mlog 1145324613 = 163889896
mlog 1108378657 = 163339774
mlog 1108378658 = 163339774
mlog 1090785345 = 163071333
mlog 1090785346 = 163071333
mlog 1082196484 = 162938706
mlog 1082196485 = 162938706
mlog 1077952576 = 162872784
mlog 1077952577 = 162872784
mlog 1075843080 = 162839919
mlog 1075843081 = 162839920
mlog 1074791425 = 162823511
mlog 1074791426 = 162823512
mlog 1074266368 = 162815313
mlog 1074266369 = 162815314
mlog 1074004032 = 162811216
mlog 1074004033 = 162811216
mlog 1073872912 = 162809168
mlog 1073872913 = 162809168
mlog 1073807364 = 162808143
mlog 1073807365 = 162808144
mlog 1073774593 = 162807631
mlog 1073774594 = 162807632
mlog 1073758208 = 162807375
mlog 1073758209 = 162807376
mlog 1073750016 = 162807247
mlog 1073750017 = 162807248
mlog 1073745920 = 162807183
mlog 1073745921 = 162807184
mlog 1073743872 = 162807151
mlog 1073743873 = 162807152
mlog 1073742848 = 162807135
mlog 1073742849 = 162807136
mlog 1073742336 = 162807127
mlog 1073742337 = 162807128
mlog 1073742080 = 162807123
mlog 1073742081 = 162807124
mlog 1073741952 = 162807121
mlog 1073741953 = 162807122
mlog 1073741888 = 162807121
mlog 1073741889 = 162807121
mlog 1073741856 = 162807120
mlog 1073741857 = 162807120
mlog 1073741840 = 162807120
mlog 1073741841 = 162807120
";

/// Exponentials, too large ones among them.
const EXPONENTIALS: &str = "\
mexp -2147483648 = 0
mexp -197694360 = 0
mexp -197694359 = 0
mexp -190000000 = 0
mexp -65536 = 65280
mexp -1 = 65536
mexp 0 = 65536
mexp 1 = 65536
mexp 65536 = 65792
mexp 11629080 = 131072
mexp 127919878 = 134217715
mexp 127919879 = 134217723
mexp 127919880 = 134217727
mexp 174436199 = 2147483519
mexp 174436200 = 2147483647
mexp 174436201 = Overflow
mexp 2147483647 = Overflow
";

/// The least magnitude that an entry of the table is taken from, and its neighbour.
const EXPONENTIAL_ENTRIES: &str = "\
mexp -11629080 = 32768
mexp -11629079 = 32768
mexp -4826505 = 49152
mexp -4826504 = 49152
mexp -2240285 = 57344
mexp -2240284 = 57344
mexp -1082777 = 61440
mexp -1082776 = 61440
mexp -532655 = 63488
mexp -532654 = 63488
mexp -264214 = 64512
mexp -264213 = 64512
mexp -131587 = 65024
mexp -131586 = 65024
mexp -65665 = 65280
mexp -65664 = 65280
mexp -32800 = 65408
mexp -32799 = 65408
mexp -16392 = 65472
mexp -16391 = 65472
mexp -8194 = 65504
mexp -8193 = 65504
mexp -4097 = 65520
mexp -4096 = 65520
mexp -2049 = 65528
mexp -2048 = 65528
mexp -1024 = 65532
mexp -1023 = 65532
mexp -512 = 65534
mexp -511 = 65534
mexp -256 = 65535
mexp -255 = 65535
mexp -128 = 65536
mexp -127 = 65535
mexp -64 = 65536
mexp -63 = 65536
mexp -32 = 65536
mexp -31 = 65536
mexp -16 = 65536
mexp -15 = 65536
mexp -8 = 65536
mexp -7 = 65536
mexp -4 = 65536
mexp -3 = 65536
mexp -2 = 65536
mexp -1 = 65536
mexp -1 = 65536
mexp 0 = 65536
mexp -1 = 65536
mexp 0 = 65536
";
