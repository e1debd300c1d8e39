//! How many bytes of a mask are 0.
ghost use Rattle.std.specs.Prelude.{◌≡◌, ◌≤◌, length};
ghost use Rattle.fold_kernel.specs.Rows.{zeros};

/// How many bytes are 0.
#[tactic(auto, using(crate::proofs::MaskBytes::zero_counts))]
pub fn zeros(bytes: &[u8]) -> usize
    ensures { result ≡ zeros bytes.now }
{
    let mut count = 0;
    let mut rest = bytes;
    while rest.len() > 240 {
        let (few, more) = rest.split_at(240);
        count += usize::from(zeros_of_few(few));
        rest = more;
    }
    count + usize::from(zeros_of_few(rest))
}

// The count stays in a byte, so that a processor counts in sixteen of them at once.
#[tactic(auto, using(crate::proofs::MaskBytes::zero_counts))]
fn zeros_of_few(bytes: &[u8]) -> u8
    requires { length bytes.now ≤ 240 }
    ensures { result ≡ zeros bytes.now }
{
    let mut count = 0;
    for i in 0..bytes.len() {
        count += u8::from(bytes[i] == 0);
    }
    count
}
