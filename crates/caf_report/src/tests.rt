use super::*;
use caf_base::{Ending, ImageSummary, Sequence, Summary, Text, Trap};
use std::alloc::Global;
use std::test::Fail;

fn image(alloc: Global, lines: &[&str], trap: Option<Trap>) -> Result<ImageSummary, Fail> {
    let mut texts = Sequence::new(alloc);
    for line in lines {
        texts.push(Text::copy_of(alloc, line)?)?;
    }
    Ok(ImageSummary { lines: texts, trap })
}

#[test]
fn lines_then_traps_then_the_ending(rt: HostRuntime) -> Result<(), Fail> {
    let alloc = rt.alloc();
    let mut images = Sequence::new(alloc);
    images.push(image(alloc, &["9223372036854775807"], None)?)?;
    images.push(image(alloc, &[], Some(Trap::Number))?)?;
    images.push(image(alloc, &["", "a b"], Some(Trap::Tasks))?)?;
    let summary = Summary {
        images,
        ending: Ending::Trapped,
    };
    let wanted = b"0: 9223372036854775807\n2: \n2: a b\n\
        trap: image 1, 2 number\ntrap: image 2, 14 tasks\n\
        trapped: images 3, lines 3, traps 2\n";
    assert_eq!(rt; report(alloc, &summary)?.as_slice(), wanted.as_slice());
    Ok(())
}
