use aom_host::Input;
use aom_transcript::Reader;
use std::io::{self, Read};
use std::test::Fail;

/// A reader of one text, which then fails.
#[derive(Drop)]
struct Once<'a> {
    text: Option<&'a [u8]>,
}

impl<'a> Read for Once<'a> {
    fn read(&mut self, buf: &mut [u8]) -> io::Result<usize> {
        let Some(text) = self.text.take() else {
            return Err(io::Error::from(io::ErrorKind::UnexpectedEof));
        };
        let count = text.len().min(buf.len());
        buf[..count].copy_from_slice(&text[..count]);
        Ok(count)
    }
}

#[test]
fn gives_what_its_reader_gives(rt: HostRuntime) -> Result<(), Fail> {
    let mut input = Input::new(Once {
        text: Some(b"go\n"),
    });
    let mut buffer = [0; 8];
    assert_eq!(rt; input.get(&mut buffer), Some(3));
    assert_eq!(rt; &buffer[..3], b"go\n".as_slice());
    assert_eq!(rt; input.get(&mut buffer), None);
    Ok(())
}
