// The sine at each half degree from 0 to 90, in millionths, and from it the sine and the cosine of any half degree.
#![tactic(auto)]

ghost use Rattle.std.specs.Prelude.{◌≡◌, ◌+◌, ◌-◌, ◌*◌, ◌<◌};
ghost use Rattle.sine.specs.Sine.{entry, size, sine, cosine, Parts};

// A number that may be below zero: it is `up` where it is not, and minus `down` where it is. The other of the two is 0.
#[derive(Clone, Copy)]
pub struct Millionths {
    pub up: u64,
    pub down: u64,
}

// The sine and the cosine of a mark.
#[derive(Clone, Copy)]
pub struct SineAndCosine(pub u64, pub u64);

// The sine of i half degrees at place i, from 0 to 90 degrees.
const SINES: [u32; 181] = [
    0, 8727, 17452, 26177, 34899, 43619, 52336, 61049, 69756, 78459, 87156, 95846, 104528, 113203,
    121869, 130526, 139173, 147809, 156434, 165048, 173648, 182236, 190809, 199368, 207912, 216440,
    224951, 233445, 241922, 250380, 258819, 267238, 275637, 284015, 292372, 300706, 309017, 317305,
    325568, 333807, 342020, 350207, 358368, 366501, 374607, 382683, 390731, 398749, 406737, 414693,
    422618, 430511, 438371, 446198, 453990, 461749, 469472, 477159, 484810, 492424, 500000, 507538,
    515038, 522499, 529919, 537300, 544639, 551937, 559193, 566406, 573576, 580703, 587785, 594823,
    601815, 608761, 615661, 622515, 629320, 636078, 642788, 649448, 656059, 662620, 669131, 675590,
    681998, 688355, 694658, 700909, 707107, 713250, 719340, 725374, 731354, 737277, 743145, 748956,
    754710, 760406, 766044, 771625, 777146, 782608, 788011, 793353, 798636, 803857, 809017, 814116,
    819152, 824126, 829038, 833886, 838671, 843391, 848048, 852640, 857167, 861629, 866025, 870356,
    874620, 878817, 882948, 887011, 891007, 894934, 898794, 902585, 906308, 909961, 913545, 917060,
    920505, 923880, 927184, 930418, 933580, 936672, 939693, 942641, 945519, 948324, 951057, 953717,
    956305, 958820, 961262, 963630, 965926, 968148, 970296, 972370, 974370, 976296, 978148, 979925,
    981627, 983255, 984808, 986286, 987688, 989016, 990268, 991445, 992546, 993572, 994522, 995396,
    996195, 996917, 997564, 998135, 998630, 999048, 999391, 999657, 999848, 999962, 1000000,
];

// The table's entry for i half degrees.
#[tactic(auto, unfolding(crate::specs::Sines::sines))]
fn entry(i: u32) -> u64
    requires { i < 181 }
    ensures { result ≡ entry i }
{
    SINES[i as usize] as u64
}

// Mark i of a quarter turn, at i degrees and a half: its sine and its cosine. Past the last, 89, both are 0.
pub fn mark(i: u32) -> SineAndCosine
    ensures { (result.0 ≡ entry (2 * i + 1)) × (result.1 ≡ entry (179 - 2 * i)) }
{
    if 89 < i {
        return SineAndCosine(0, 0);
    }
    SineAndCosine(entry(2 * i + 1), entry(179 - 2 * i))
}

// The size of the sine of x half degrees.
pub fn size(x: u32) -> u64
    ensures { result ≡ size x }
{
    let y = x % 360;
    if y <= 180 {
        return entry(y);
    }
    entry(360 - y)
}

// The sine of x half degrees.
pub fn sine(x: u32) -> Millionths
    ensures { Parts (sine x) result.up result.down }
{
    let n = size(x);
    if x % 720 <= 360 {
        return Millionths { up: n, down: 0 };
    }
    Millionths { up: 0, down: n }
}

// The cosine of x half degrees: the sine a quarter turn on.
pub fn cosine(x: u32) -> Millionths
    ensures { Parts (cosine x) result.up result.down }
{
    sine(x % 720 + 180)
}
