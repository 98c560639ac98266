// Reading the distress sentence: the pattern around it, then the report inside.
ghost use Rattle.sentence.specs.Sentence.{Hears};

use distress::Report;
use format::Refusal;

// The address and the report. The report inside is read only if the sentence around it was accepted. The sentence's own refusals
// have no bit, the report's have the report's.
pub fn read(s: &[u8]) -> Result<(u32, Report), Refusal>
    ensures { Hears s.now result }
{
    let outer = crate::pattern::accept(s);
    let Ok(to) = outer else {
        return Err(outer.unwrap_err().into());
    };
    let n = s.len();
    let bytes = crate::spelling::unhex(&s[n - 39..n - 5]);
    let r = distress::read(&bytes)?;
    Ok((to, r))
}
