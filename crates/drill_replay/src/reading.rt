// Reads the next script of the file.
use crate::comparing::Kind;
use program_io::read_full;
use std::io;
use std::io::Read;

// A script, in the front of its buffer, and the answer that it is to have, in the front of another.
#[derive(Clone, Copy)]
pub struct NextScript<'a> {
    pub kind: Kind,
    pub script: &'a [u8],
    pub answer: &'a [u8],
}

// Why there is no next script.
#[derive(Clone, Copy)]
pub enum NoScript {
    // All were read, or a million were.
    End,
    // The file ends in the middle of a script.
    Cut,
}

// Reads n bytes into the front of buf; none if the file or buf has fewer.
fn read_part<'a, R: Read>(
    from: &mut R,
    buf: &'a mut [u8],
    n: usize,
) -> io::Result<Option<&'a [u8]>> {
    let Some(part) = buf.get_mut(..n) else {
        return Ok(None);
    };
    if read_full(from, part)? == n {
        return Ok(Some(part));
    }
    Ok(None)
}

// Reads the next script and its answer.
pub fn read_next<'a, R: Read>(
    from: &mut R,
    script: &'a mut [u8],
    answer: &'a mut [u8],
) -> io::Result<Result<NextScript<'a>, NoScript>> {
    let mut head = [0u8; 9];
    let got = read_full(from, &mut head)?;
    if got == 0 {
        return Ok(Err(NoScript::End));
    }
    if got != 9 {
        return Ok(Err(NoScript::Cut));
    }
    let Some(script) = read_part(from, script, session_script::u32_at(&head, 1) as usize)? else {
        return Ok(Err(NoScript::Cut));
    };
    let Some(answer) = read_part(from, answer, session_script::u32_at(&head, 5) as usize)? else {
        return Ok(Err(NoScript::Cut));
    };
    Ok(Ok(NextScript {
        kind: Kind::from(head[0]),
        script,
        answer,
    }))
}
