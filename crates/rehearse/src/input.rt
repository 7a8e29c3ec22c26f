// The tree, and the script behind the first line that holds only `--`.

#[derive(Clone, Copy)]
pub(crate) struct Input<'a> {
    pub(crate) tree: &'a [u8],
    pub(crate) script: Option<&'a [u8]>,
}

impl<'a> Input<'a> {
    pub(crate) fn of(bytes: &'a [u8]) -> Input<'a> {
        let mut start: usize = 0;
        for line in bytes.split(|byte| *byte == b'\n') {
            let next = start.saturating_add(line.len()).saturating_add(1);
            if line == b"--".as_slice() {
                return Input {
                    tree: bytes.get(..start).unwrap_or(bytes),
                    script: Some(bytes.get(next..).unwrap_or(b"")),
                };
            }
            start = next;
        }
        Input {
            tree: bytes,
            script: None,
        }
    }
}
