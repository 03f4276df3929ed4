// What the plain lists answer to any call of a list of calls.
use super::answer::Answer;
use super::lists::Lists;
use super::rows::Part;
use super::shape::path;
use reading::Reading;
use runs::Call;
use std::alloc::AllocError;

impl Lists {
    fn reading<R: Reading>(&self, readings: &[R], version: u32, position: u32) -> Answer<R> {
        let Some(list) = self.list(version) else {
            return Answer::Refused(1, 0);
        };
        let Some((block, reading)) = list.at(readings, position as usize) else {
            return Answer::Refused(2, 0);
        };
        let path = path(list.nodes.as_slice(), block.saturating_add(1));
        Answer::Read { reading, path }
    }

    // The number by which a span or a summary is refused, if any.
    fn outside(&self, version: u32, a: u32, b: u32) -> Option<u32> {
        match self.list(version) {
            None => Some(1),
            Some(list) if a > b || b as usize > list.len() => Some(2),
            Some(_) => None,
        }
    }

    // The readings of a version from a on, up to b and without it.
    pub(crate) fn stretch<R: Reading>(
        &self,
        readings: &[R],
        version: u32,
        a: u32,
        b: u32,
    ) -> Result<Vec<R>, AllocError> {
        let mut found = Vec::new(self.heap);
        if let Some(list) = self.list(version) {
            let all = list.readings(self.heap, readings)?;
            found.extend_from_slice(all.get(a as usize..b as usize).unwrap_or(&[]))?;
        }
        Ok(found)
    }

    fn span<R: Reading>(
        &self,
        readings: &[R],
        version: u32,
        a: u32,
        b: u32,
        out: &mut [R],
        to: usize,
    ) -> Result<Answer<R>, AllocError> {
        if let Some(number) = self.outside(version, a, b) {
            return Ok(Answer::Refused(number, 0));
        }
        let found = self.stretch(readings, version, a, b)?;
        // Past its end there is no output.
        let at = to.min(out.len());
        let room = &mut out[at..];
        if room.len() < found.len() {
            return Ok(Answer::Refused(9, 0));
        }
        for (place, reading) in room.iter_mut().zip(found.iter()) {
            *place = *reading;
        }
        Ok(Answer::Spanned(found.len()))
    }

    fn summary<R: Reading>(&self, version: u32, a: u32, b: u32) -> Answer<R> {
        match self.outside(version, a, b) {
            Some(number) => Answer::Refused(number, 0),
            None => Answer::Summed { version, a, b },
        }
    }

    pub(crate) fn answer<R: Reading>(
        &mut self,
        readings: &[R],
        call: Call,
        out: &mut [R],
    ) -> Result<Answer<R>, AllocError> {
        match call {
            Call::Insert {
                base,
                place,
                level,
                from,
                len,
            } => self.insert(readings, base, place, level, Part { from, len }),
            Call::Append { base, from, len } => self.append(readings, base, Part { from, len }),
            Call::Change {
                base,
                place,
                from,
                len,
            } => self.change(readings, base, place, Part { from, len }),
            Call::Remove { base, place } => self.remove(readings, base, place),
            Call::Reading { version, position } => Ok(self.reading(readings, version, position)),
            Call::Span { version, a, b, to } => self.span(readings, version, a, b, out, to),
            Call::Summary { version, a, b } => Ok(self.summary(version, a, b)),
        }
    }
}
