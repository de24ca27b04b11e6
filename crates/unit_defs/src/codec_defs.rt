//! Definitions alone: which codecs are lawful, those that read what the layouts of links say.
