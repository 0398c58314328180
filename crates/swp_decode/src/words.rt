//! The words of a line.
ghost use Rattle.std.specs.Prelude.{ℕ, List, [], ◌∷◌, ◌++◌, ◌≡◌, ◌+◌, ◌*◌, ◌/◌, ◌%◌, ◌<◌, ◌≤◌, length, decimal, codes, true};
ghost use Rattle.swp_base.specs.DataUnits.{IsLpdu};
ghost use Rattle.swp_frame.specs.declared.fed.Fed.TheVariants.{Frame};
ghost use Rattle.swp_lpdu.specs.Controls.{control_of};
ghost use Rattle.swp_decode.specs.Texts.{hex_of, hex_word, lpdu_words, kind_word, act_words, control_words, fault_words, verdict_words};

use arrayvec::ArrayVec;
use swp_base::{Act, Control, FrameFault, Kind, Lpdu};
use swp_frame::Fed;
use swp_lpdu::{LpduFault, read_lpdu};

/// Text that is gathered before it is written.
pub type Text = ArrayVec<u8, 8192>;

/// Appends a text.
#[inline(always)]
pub fn push_text(text: &mut Text, more: &[u8])
    requires { length text.old.items + length more.now ≤ 8192 }
    ensures items { text.new.items ≡ text.old.items ++ more.now }
    ensures sized { length text.new.items ≡ length text.old.items + length more.now }
{
    let _fits = text.try_extend_from_slice(more);
}

/// Appends a number in decimal.
#[inline(always)]
pub fn push_decimal(text: &mut Text, n: u32)
    requires { length text.old.items + 10 ≤ 8192 }
    ensures items { text.new.items ≡ text.old.items ++ decimal n }
    ensures sized { length text.new.items ≤ length text.old.items + 10 }
{
    if n < 10 {
        text.push(b'0' + n as u8);
        return;
    }
    push_digits(text, n);
}

/// The two decimal digits of each number below 100, the first the low byte.
static DECIMAL_PAIRS: [u16; 100] = [
    0x3030, 0x3130, 0x3230, 0x3330, 0x3430, 0x3530, 0x3630, 0x3730, 0x3830, 0x3930, 0x3031, 0x3131,
    0x3231, 0x3331, 0x3431, 0x3531, 0x3631, 0x3731, 0x3831, 0x3931, 0x3032, 0x3132, 0x3232, 0x3332,
    0x3432, 0x3532, 0x3632, 0x3732, 0x3832, 0x3932, 0x3033, 0x3133, 0x3233, 0x3333, 0x3433, 0x3533,
    0x3633, 0x3733, 0x3833, 0x3933, 0x3034, 0x3134, 0x3234, 0x3334, 0x3434, 0x3534, 0x3634, 0x3734,
    0x3834, 0x3934, 0x3035, 0x3135, 0x3235, 0x3335, 0x3435, 0x3535, 0x3635, 0x3735, 0x3835, 0x3935,
    0x3036, 0x3136, 0x3236, 0x3336, 0x3436, 0x3536, 0x3636, 0x3736, 0x3836, 0x3936, 0x3037, 0x3137,
    0x3237, 0x3337, 0x3437, 0x3537, 0x3637, 0x3737, 0x3837, 0x3937, 0x3038, 0x3138, 0x3238, 0x3338,
    0x3438, 0x3538, 0x3638, 0x3738, 0x3838, 0x3938, 0x3039, 0x3139, 0x3239, 0x3339, 0x3439, 0x3539,
    0x3639, 0x3739, 0x3839, 0x3939,
];

/// The two decimal digits of a number below 100.
#[inline(always)]
fn two_digits(n: u32) -> [u8; 2]
    requires { n < 100 }
    ensures { result ≡ (48 + n / 10) ∷ (48 + n % 10) ∷ [] }
{
    DECIMAL_PAIRS[n as usize].to_le_bytes()
}

/// Appends the four digits of a number below 10,000, its leading zeros too.
#[inline(always)]
fn push_four_digits(text: &mut Text, n: u32)
    requires small { n < 10000 }
    requires room { length text.old.items + 4 ≤ 8192 }
    ensures { text.new.items ≡ text.old.items ++ (48 + n / 1000) ∷ (48 + n / 100 % 10) ∷ (48 + n / 10 % 10) ∷ (48 + n % 10) ∷ [] }
{
    let [first, second] = two_digits(n / 100);
    let [third, fourth] = two_digits(n % 100);
    push_text(text, &[first, second, third, fourth]);
}

/// Appends a number of two digits or more.
fn push_digits(text: &mut Text, n: u32)
    requires some { 10 ≤ n }
    requires room { length text.old.items + length (decimal n) ≤ 8192 }
    ensures { text.new.items ≡ text.old.items ++ decimal n }
{
    if n >= 100_000 {
        push_digits(text, n / 10_000);
        push_four_digits(text, n % 10_000);
    } else if n >= 10_000 {
        text.push(b'0' + (n / 10_000) as u8);
        push_four_digits(text, n % 10_000);
    } else if n >= 1000 {
        push_four_digits(text, n);
    } else if n >= 100 {
        let [second, third] = two_digits(n % 100);
        push_text(text, &[b'0' + (n / 100) as u8, second, third]);
    } else {
        push_text(text, &two_digits(n));
    }
}

/// The two hexadecimal digits of each byte, the first the low byte.
static PAIRS: [u16; 256] = [
    0x3030, 0x3130, 0x3230, 0x3330, 0x3430, 0x3530, 0x3630, 0x3730, 0x3830, 0x3930, 0x4130, 0x4230,
    0x4330, 0x4430, 0x4530, 0x4630, 0x3031, 0x3131, 0x3231, 0x3331, 0x3431, 0x3531, 0x3631, 0x3731,
    0x3831, 0x3931, 0x4131, 0x4231, 0x4331, 0x4431, 0x4531, 0x4631, 0x3032, 0x3132, 0x3232, 0x3332,
    0x3432, 0x3532, 0x3632, 0x3732, 0x3832, 0x3932, 0x4132, 0x4232, 0x4332, 0x4432, 0x4532, 0x4632,
    0x3033, 0x3133, 0x3233, 0x3333, 0x3433, 0x3533, 0x3633, 0x3733, 0x3833, 0x3933, 0x4133, 0x4233,
    0x4333, 0x4433, 0x4533, 0x4633, 0x3034, 0x3134, 0x3234, 0x3334, 0x3434, 0x3534, 0x3634, 0x3734,
    0x3834, 0x3934, 0x4134, 0x4234, 0x4334, 0x4434, 0x4534, 0x4634, 0x3035, 0x3135, 0x3235, 0x3335,
    0x3435, 0x3535, 0x3635, 0x3735, 0x3835, 0x3935, 0x4135, 0x4235, 0x4335, 0x4435, 0x4535, 0x4635,
    0x3036, 0x3136, 0x3236, 0x3336, 0x3436, 0x3536, 0x3636, 0x3736, 0x3836, 0x3936, 0x4136, 0x4236,
    0x4336, 0x4436, 0x4536, 0x4636, 0x3037, 0x3137, 0x3237, 0x3337, 0x3437, 0x3537, 0x3637, 0x3737,
    0x3837, 0x3937, 0x4137, 0x4237, 0x4337, 0x4437, 0x4537, 0x4637, 0x3038, 0x3138, 0x3238, 0x3338,
    0x3438, 0x3538, 0x3638, 0x3738, 0x3838, 0x3938, 0x4138, 0x4238, 0x4338, 0x4438, 0x4538, 0x4638,
    0x3039, 0x3139, 0x3239, 0x3339, 0x3439, 0x3539, 0x3639, 0x3739, 0x3839, 0x3939, 0x4139, 0x4239,
    0x4339, 0x4439, 0x4539, 0x4639, 0x3041, 0x3141, 0x3241, 0x3341, 0x3441, 0x3541, 0x3641, 0x3741,
    0x3841, 0x3941, 0x4141, 0x4241, 0x4341, 0x4441, 0x4541, 0x4641, 0x3042, 0x3142, 0x3242, 0x3342,
    0x3442, 0x3542, 0x3642, 0x3742, 0x3842, 0x3942, 0x4142, 0x4242, 0x4342, 0x4442, 0x4542, 0x4642,
    0x3043, 0x3143, 0x3243, 0x3343, 0x3443, 0x3543, 0x3643, 0x3743, 0x3843, 0x3943, 0x4143, 0x4243,
    0x4343, 0x4443, 0x4543, 0x4643, 0x3044, 0x3144, 0x3244, 0x3344, 0x3444, 0x3544, 0x3644, 0x3744,
    0x3844, 0x3944, 0x4144, 0x4244, 0x4344, 0x4444, 0x4544, 0x4644, 0x3045, 0x3145, 0x3245, 0x3345,
    0x3445, 0x3545, 0x3645, 0x3745, 0x3845, 0x3945, 0x4145, 0x4245, 0x4345, 0x4445, 0x4545, 0x4645,
    0x3046, 0x3146, 0x3246, 0x3346, 0x3446, 0x3546, 0x3646, 0x3746, 0x3846, 0x3946, 0x4146, 0x4246,
    0x4346, 0x4446, 0x4546, 0x4646,
];

/// The two hexadecimal digits of a byte.
#[inline(always)]
fn digits_of(byte: u8) -> [u8; 2]
    ensures { result ≡ hex_of (byte ∷ []) }
{
    PAIRS[byte as usize].to_le_bytes()
}

/// Appends bytes in hexadecimal, two digits each.
pub fn push_hex(text: &mut Text, bytes: &[u8])
    requires { length text.old.items + 2 * length bytes.now ≤ 8192 }
    ensures items { text.new.items ≡ text.old.items ++ hex_of bytes.now }
    ensures sized { length text.new.items ≡ length text.old.items + 2 * length bytes.now }
{
    let mut read = 0;
    'fours: while let Some((four, _)) = bytes[read..].split_first_chunk::<4>() {
        push_hex_of_four(text, four);
        read += 4;
    }
    for byte in &bytes[read..] {
        push_text(text, &digits_of(*byte));
    }
}

/// Appends four bytes in hexadecimal.
#[inline(always)]
fn push_hex_of_four(text: &mut Text, four: &[u8; 4])
    requires { length text.old.items + 8 ≤ 8192 }
    ensures { text.new.items ≡ text.old.items ++ hex_of four.now }
{
    let [first, second] = digits_of(four[0]);
    let [third, fourth] = digits_of(four[1]);
    let [fifth, sixth] = digits_of(four[2]);
    let [seventh, eighth] = digits_of(four[3]);
    push_text(
        text,
        &[first, second, third, fourth, fifth, sixth, seventh, eighth],
    );
}

/// Appends two bytes in hexadecimal.
fn push_hex_word(text: &mut Text, n: u16)
    requires { length text.old.items + 4 ≤ 8192 }
    ensures items { text.new.items ≡ text.old.items ++ hex_word n }
    ensures sized { length text.new.items ≡ length text.old.items + 4 }
{
    push_hex(text, &n.to_be_bytes());
}

fn push_kind(text: &mut Text, kind: Kind)
    requires { length text.old.items + 5 ≤ 8192 }
    ensures items { text.new.items ≡ text.old.items ++ kind_word kind }
    ensures sized { length text.new.items ≤ length text.old.items + 5 }
{
    match kind {
        Kind::Rr => push_text(text, b"rr "),
        Kind::Rej => push_text(text, b"rej "),
        Kind::Rnr => push_text(text, b"rnr "),
        Kind::Srej => push_text(text, b"srej "),
    }
}

fn push_act(text: &mut Text, act: &Act)
    requires { length text.old.items + 11 ≤ 8192 }
    ensures items { text.new.items ≡ text.old.items ++ act_words act.now }
    ensures sized { length text.new.items ≤ length text.old.items + 11 }
{
    match act {
        Act::Ready => push_text(text, b"ready"),
        Act::SyncId(id) => {
            push_text(text, b"syncid ");
            push_hex_word(text, *id);
        }
        Act::PowerMode(power) => {
            push_text(text, b"power ");
            push_hex(text, &[*power]);
        }
    }
}

fn push_two(text: &mut Text, first: u8, second: u8)
    requires { length text.old.items + 21 ≤ 8192 }
    ensures items { text.new.items ≡ text.old.items ++ decimal first ++ codes " " ++ decimal second }
    ensures sized { length text.new.items ≤ length text.old.items + 21 }
{
    push_decimal(text, u32::from(first));
    push_text(text, b" ");
    push_decimal(text, u32::from(second));
}

fn push_control(text: &mut Text, control: &Control)
    requires { length text.old.items + 30 ≤ 8192 }
    ensures items { text.new.items ≡ text.old.items ++ control_words control.now }
    ensures sized { length text.new.items ≤ length text.old.items + 30 }
{
    match control {
        Control::I { ns, nr, .. } => {
            push_text(text, b"i ");
            push_two(text, *ns, *nr);
        }
        Control::S { kind, nr } => {
            push_kind(text, *kind);
            push_decimal(text, u32::from(*nr));
        }
        Control::Rset { window, caps } => {
            push_text(text, b"rset ");
            push_two(text, *window, *caps);
        }
        Control::Ua => push_text(text, b"ua"),
        Control::Act { act, .. } => push_act(text, act),
        Control::Clt => push_text(text, b"clt"),
    }
}

fn push_fault(text: &mut Text, fault: &FrameFault)
    requires { length text.old.items + 30 ≤ 8192 }
    ensures items { text.new.items ≡ text.old.items ++ fault_words fault.now }
    ensures sized { length text.new.items ≤ length text.old.items + 30 }
{
    match fault {
        FrameFault::Length { bits } => {
            push_text(text, b"length ");
            push_decimal(text, *bits);
        }
        FrameFault::Alignment { bits } => {
            push_text(text, b"alignment ");
            push_decimal(text, *bits);
        }
        FrameFault::Crc { want, got } => {
            push_text(text, b"crc ");
            push_hex_word(text, *want);
            push_text(text, b" ");
            push_hex_word(text, *got);
        }
        FrameFault::Broken => push_text(text, b"broken"),
    }
}

/// Appends what a frame says, or why it was refused.
pub fn push_verdict(text: &mut Text, fed: &Fed)
    requires { length text.old.items + 91 ≤ 8192 }
    ensures items { text.new.items ≡ text.old.items ++ verdict_words fed.now }
    ensures sized { length text.new.items ≤ length text.old.items + 91 }
{
    match fed {
        Fed::Nothing => {}
        Fed::Frame(lpdu) => push_payload(text, lpdu.bytes()),
        Fed::Refused(fault) => push_fault(text, fault),
    }
}

/// Appends the payload of a frame, and what it says. What an I frame carries isn't written, so it isn't read.
#[inline(always)]
pub fn push_payload(text: &mut Text, bytes: &[u8])
    requires room { length text.old.items + 91 ≤ 8192 }
    requires payload { IsLpdu bytes.now }
    ensures items { text.new.items ≡ text.old.items ++ verdict_words (Frame bytes.now) }
    ensures sized { length text.new.items ≤ length text.old.items + 91 }
{
    push_hex(text, bytes);
    push_text(text, b" ");
    push_words(text, bytes);
}

/// Appends what the bytes of an LPDU say.
#[inline(always)]
fn push_words(text: &mut Text, bytes: &[u8])
    requires room { length text.old.items + 30 ≤ 8192 }
    requires payload { IsLpdu bytes.now }
    ensures items { text.new.items ≡ text.old.items ++ lpdu_words (control_of bytes.now) }
    ensures sized { length text.new.items ≤ length text.old.items + 30 }
{
    let first = bytes[0];
    if (0x80..=0xBF).contains(&first) && bytes.len() >= 2 {
        push_text(text, b"i ");
        push_two(text, (first - 0x80) / 8, first % 8);
        return;
    }
    push_read_words(text, &Lpdu::new(bytes));
}

/// Appends what an LPDU says.
#[inline(never)]
fn push_read_words(text: &mut Text, lpdu: &Lpdu)
    requires { length text.old.items + 30 ≤ 8192 }
    ensures items { text.new.items ≡ text.old.items ++ lpdu_words (control_of lpdu.now) }
    ensures sized { length text.new.items ≤ length text.old.items + 30 }
{
    match read_lpdu(lpdu) {
        Ok(control) => push_control(text, &control),
        Err(LpduFault::Unknown { .. }) => push_text(text, b"unknown"),
        Err(LpduFault::Short { .. }) => push_text(text, b"short"),
        Err(LpduFault::TooLong { .. }) => push_text(text, b"toolong"),
    }
}
