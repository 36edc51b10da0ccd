// The cases of documents 01 and 02, and of handles, as one table across codecs, format, writer, read calls, search, MIDI files, sheets and
// the pad, settled by computing the definitions: specs/Lib.antt lists it. There is no code here. The cases hold the definitions to the
// documents' digits: one that is changed together with its code and proofs, to another refusal's number, order of two tests or edge of a
// rule, is meant to fail a case.

#![tactic(auto)]
